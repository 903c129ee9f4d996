// Which calls of an object in memory fail.
ghost use Rattle.std.specs.Prelude.{◌≡◌, ◌==◌, ◌&&◌};
ghost use Rattle.vm_port.specs.Calls.{is_failing, next_call};
ghost use Rattle.vm_port.specs.Failing.{counted, count_of, is_failing_call, is_kind};

/// The kinds of call of a mapper.
#[derive(Clone, Copy, Debug, PartialEq, Eq)]
pub enum CallKind {
    Size,
    PullIn,
    PushOut,
    Access,
    SwapIn,
    SwapOut,
}

/// The nth call of a kind, counted from 1.
#[derive(Clone, Copy, Debug, PartialEq, Eq)]
pub struct CallNo {
    pub kind: CallKind,
    pub nth: u32,
}

// How many calls of each kind were made. Each count stays at its type's end.
#[derive(Clone, Copy, Debug, PartialEq, Eq)]
pub(crate) struct Calls {
    pub size: u64,
    pub pull_in: u64,
    pub push_out: u64,
    pub access: u64,
    pub swap_in: u64,
    pub swap_out: u64,
}

// One call more, and its number.
fn next_call(count: &mut u64) -> u64
    ensures number { result ≡ count.new }
    ensures count { count.new ≡ next_call count.old }
{
    *count = count.saturating_add(1);
    *count
}

// One call more of this kind, and its number.
fn count_call(calls: &mut Calls, kind: CallKind) -> u64
    ensures number { result ≡ count_of kind calls.new }
    ensures calls { calls.new ≡ counted kind calls.old }
{
    match kind {
        CallKind::Size => next_call(&mut calls.size),
        CallKind::PullIn => next_call(&mut calls.pull_in),
        CallKind::PushOut => next_call(&mut calls.push_out),
        CallKind::Access => next_call(&mut calls.access),
        CallKind::SwapIn => next_call(&mut calls.swap_in),
        CallKind::SwapOut => next_call(&mut calls.swap_out),
    }
}

fn is_listed(fails: &[CallNo], kind: CallKind, nth: u64) -> bool
    ensures { result ≡ is_failing_call fails.now kind nth }
{
    fails
        .iter()
        .any(|call| call.kind == kind && u64::from(call.nth) == nth)
}

// Counts one call of this kind, and says whether it is to fail.
pub(crate) fn fails_now(calls: &mut Calls, fails: &[CallNo], kind: CallKind) -> bool
    ensures failing { result ≡ is_failing_call fails.now kind (count_of kind calls.new) }
    ensures calls { calls.new ≡ counted kind calls.old }
{
    let nth = count_call(calls, kind);
    is_listed(fails, kind, nth)
}

// Whether the call of this number, of a source or a sink, is to fail.
pub(crate) fn is_failing(fails: &[u32], call: u64) -> bool
    ensures { result ≡ is_failing fails.now call }
{
    fails.iter().any(|n| u64::from(*n) == call)
}

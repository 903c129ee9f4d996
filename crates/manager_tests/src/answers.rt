// Histories of drawn commands to the manager, each answered beside the machine that copies at once.
ghost use Rattle.std.specs.Prelude.{◌≡◌, ◌≤◌, ◌^◌, Some};
ghost use Rattle.vm_model.specs.declared.limits.TheConstants.{LIVE_PAGES};
ghost use Rattle.vm_model.specs.Machine.{live_pages};
ghost use Rattle.vm_port.specs.Mapping.{held_of};

use crate::commands::{LONG, PAGE, Script, is_one_of};
use crate::segments::{hold_the_same, push_too, segments};
use gmi_calls::{Gmi, answer};
use plain_machine::Plain;
use pvm_core::Pvm;
use std::alloc::Global;
use std::process::Abort;
use std::test::Fail;
use vm_ids::{Answer, CacheId, Command, Refusal, Reply, Trouble};
use vm_port::{Chooser, Clock, MemoryMapper};

// So long is a history.
const STEPS: u32 = 15_000;

// So many kinds of commands are counted, and each is to be done so often.
const KINDS: usize = 21;

const OFTEN: u32 = 20;

// The kinds that are never done in three frames, which have to stay unlocked.
const LOCKS: usize = 19;

const UNLOCKS: usize = 20;

// Whether two answers are the same.
fn same(one: &Answer, other: &Answer) -> bool {
    match (one, other) {
        (Ok(Reply::Done), Ok(Reply::Done)) => true,
        (Ok(Reply::Actor(a)), Ok(Reply::Actor(b))) => a == b,
        (Ok(Reply::Cache(a)), Ok(Reply::Cache(b))) => a == b,
        (Ok(Reply::Region(a)), Ok(Reply::Region(b))) => a == b,
        (Ok(Reply::Bytes(a)), Ok(Reply::Bytes(b))) => a.as_slice() == b.as_slice(),
        (Ok(Reply::Status(a)), Ok(Reply::Status(b))) => a == b,
        (Ok(Reply::Stat(a)), Ok(Reply::Stat(b))) => a.live == b.live,
        (Err(a), Err(b)) => a == b,
        _ => false,
    }
}

// How often commands of each kind were done, and how often one was denied.
#[derive(Drop)]
struct Tally {
    done: [u32; KINDS],
}

impl Tally {
    fn count(&mut self, command: &Command, answer: &Answer, named: &[CacheId; 2]) {
        let kind = match (command, answer) {
            (_, Err(Trouble::Refused(Refusal::WriteDenied))) => 0,
            (_, Err(_)) => return,
            (Command::OpenSegment(_), _) => 1,
            (Command::Store(..), _) => 2,
            (Command::Sync(_), _) => 3,
            (Command::Flush(_), _) => 4,
            (Command::Invalidate(_), _) => 5,
            (Command::Destroy(cache), _) => 6 + is_one_of(named, *cache) as usize,
            (Command::Copy(span), _) if span.pages == LONG => 17,
            (Command::Move(span), _) if span.pages == LONG => 18,
            (Command::Copy(span), _) => 8 + is_one_of(named, span.to) as usize,
            (Command::Move(span), _) => 10 + is_one_of(named, span.to) as usize,
            (Command::ExitActor(_), _) => 12,
            (Command::Split(..), _) => 13,
            (Command::Protect(..), _) => 14,
            (Command::Status(_), _) => 15,
            (Command::Find(..), _) => 16,
            (Command::Lock(_), _) => LOCKS,
            (Command::Unlock(_), _) => UNLOCKS,
            _ => return,
        };
        self.done[kind] = self.done[kind].saturating_add(1);
    }
}

// Commands, each to the manager and to the eager machine, which answer the same and push the same.
fn answer_both<G: Gmi<MemoryMapper, C>, C: Chooser>(
    rt: &impl Abort,
    gmi: &mut G,
    mapper: &mut MemoryMapper,
    chooser: &mut C,
    plain: &mut Plain,
    script: &mut Script,
    tally: &mut Tally,
) -> Result<(), Fail>
    requires valid { G.valid gmi.old (Some (held_of mapper.old)) }
    requires made { G.made gmi.old ≤ 2 ^ 61 }
    requires fits { mapper.old.page_bytes
        ≡ (G.machine gmi.old (Some (held_of mapper.old))).page_bytes }
    requires live { live_pages (G.machine gmi.old (Some (held_of mapper.old))) ≤ LIVE_PAGES }
{
    assert!(rt; answer(gmi, &Command::MakeActor, mapper, chooser).is_ok());
    assert!(rt; plain.answer(&Command::MakeActor).is_ok());
    for step in 0..STEPS {
        let command = script.next()?;
        let (pushes, pushes_of_plain) = (mapper.pushes(), plain.mapper().pushes());
        let given = answer(gmi, &command, mapper, chooser);
        if mapper.pushes() > pushes {
            push_too(rt, plain, mapper, &script.named);
        }
        let wanted = plain.answer(&command);
        assert!(rt; same(&given, &wanted), "at {step}");
        if plain.mapper().pushes() > pushes_of_plain {
            assert!(rt; hold_the_same(plain.mapper(), mapper), "at {step}");
        }
        script.hear(&command, &given);
        tally.count(&command, &given, &script.named);
    }
    Ok(())
}

// Over so many frames.
fn answers_as_plain_pages(
    rt: &impl Abort,
    alloc: Global,
    frames: u32,
    script: &mut Script,
    tally: &mut Tally,
) -> Result<(), Fail>
    requires some { 3 ≤ frames }
    requires few { frames ≤ 6 }
{
    let mut gmi = Pvm::new(alloc, frames, PAGE)?;
    let mut mapper = segments(alloc, 1 << 16)?;
    let mut plain = Plain::new(alloc, frames, PAGE, segments(alloc, 0)?);
    answer_both(
        rt,
        &mut gmi,
        &mut mapper,
        &mut Clock::new(),
        &mut plain,
        script,
        tally,
    )
}

// Histories with a look after each command, and two with few looks, in which pages are in frames,
// slots and segments as the commands left them. In the last one the nodes of long caches are alike
// for long.
fn answer_as_plain_pages(rt: &impl Abort, alloc: Global, frames: u32) -> Result<(), Fail>
    requires some { 3 ≤ frames }
    requires few { frames ≤ 6 }
{
    let mut tally = Tally { done: [0; KINDS] };
    for seed in 0..20 {
        let mut script = Script::new(seed, 1, false);
        answers_as_plain_pages(rt, alloc, frames, &mut script, &mut tally)?;
    }
    let mut mixed = Script::new(20, 400, false);
    answers_as_plain_pages(rt, alloc, frames, &mut mixed, &mut tally)?;
    let mut long = Script::new(21, 400, true);
    answers_as_plain_pages(rt, alloc, frames, &mut long, &mut tally)?;
    let kinds = if frames > 3 { KINDS } else { LOCKS };
    for kind in 0..kinds {
        assert!(rt; tally.done[kind] >= OFTEN, "{kind} is seldom");
    }
    Ok(())
}

#[test]
fn three_frames_answer_as_plain_pages(rt: HostRuntime) -> Result<(), Fail> {
    answer_as_plain_pages(&rt, rt.alloc(), 3)
}

#[test]
fn six_frames_answer_as_plain_pages(rt: HostRuntime) -> Result<(), Fail> {
    answer_as_plain_pages(&rt, rt.alloc(), 6)
}

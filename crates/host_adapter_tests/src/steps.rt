// Calls of a mapper over files with pages of 512 bytes, and what they have to answer.
ghost use Rattle.std.specs.Prelude.{◌≡◌};

use host_adapters::FileMapper;
use vm_ids::{PageNo, SegId, SlotId};
use vm_port::{Failed, Mapper};

// A call of a mapper, and what it has to answer: of a page its first byte and its last one.
#[derive(Clone, Copy)]
pub(crate) enum Step {
    Size(SegId, Result<Option<u32>, Failed>),
    PullIn(SegId, PageNo, Result<(u8, u8), Failed>),
    // A page is pushed of which each byte is this one.
    PushOut(SegId, PageNo, u8, Result<(), Failed>),
    GetWriteAccess(SegId, PageNo, Result<bool, Failed>),
    SwapIn(SlotId, Result<(u8, u8), Failed>),
    SwapOut(SlotId, u8, Result<(), Failed>),
}

fn pulled(mapper: &mut FileMapper<'_>, seg: SegId, page: PageNo) -> Result<(u8, u8), Failed>
    requires { mapper.old.page_bytes ≡ 512 }
    ensures { mapper.new.page_bytes ≡ mapper.old.page_bytes }
{
    let mut bytes = [1u8; 512];
    mapper.pull_in(seg, page, &mut bytes)?;
    Ok((bytes[0], bytes[511]))
}

fn swapped(mapper: &mut FileMapper<'_>, slot: SlotId) -> Result<(u8, u8), Failed>
    requires { mapper.old.page_bytes ≡ 512 }
    ensures { mapper.new.page_bytes ≡ mapper.old.page_bytes }
{
    let mut bytes = [1u8; 512];
    mapper.swap_in(slot, &mut bytes)?;
    Ok((bytes[0], bytes[511]))
}

impl Step {
    fn holds(&self, mapper: &mut FileMapper<'_>) -> bool
        requires { mapper.old.page_bytes ≡ 512 }
        ensures { mapper.new.page_bytes ≡ mapper.old.page_bytes }
    {
        match self {
            Step::Size(seg, pages) => mapper.size(*seg) == *pages,
            Step::PullIn(seg, page, ends) => pulled(mapper, *seg, *page) == *ends,
            Step::PushOut(seg, page, byte, done) => {
                mapper.push_out(*seg, *page, &[*byte; 512]) == *done
            }
            Step::GetWriteAccess(seg, page, may) => mapper.get_write_access(*seg, *page) == *may,
            Step::SwapIn(slot, ends) => swapped(mapper, *slot) == *ends,
            Step::SwapOut(slot, byte, done) => mapper.swap_out(*slot, &[*byte; 512]) == *done,
        }
    }
}

// Whether each of these calls answers what it has to.
pub(crate) fn hold(mapper: &mut FileMapper<'_>, steps: &[Step]) -> bool
    requires { mapper.old.page_bytes ≡ 512 }
    ensures { mapper.new.page_bytes ≡ mapper.old.page_bytes }
{
    for step in steps {
        if !step.holds(mapper) {
            return false;
        }
    }
    true
}

// Whose mapper is called, where two runs use the same files.
#[derive(Clone, Copy)]
pub(crate) enum Run {
    One,
    Other,
}

// Whether a call of one of two mappers answers what it has to.
fn holds_of(one: &mut FileMapper<'_>, other: &mut FileMapper<'_>, run: Run, step: &Step) -> bool
    requires one { one.old.page_bytes ≡ 512 }
    requires other { other.old.page_bytes ≡ 512 }
    ensures one { one.new.page_bytes ≡ one.old.page_bytes }
    ensures other { other.new.page_bytes ≡ other.old.page_bytes }
{
    match run {
        Run::One => step.holds(one),
        Run::Other => step.holds(other),
    }
}

// Whether each of these calls of two mappers answers what it has to.
pub(crate) fn all_hold(
    one: &mut FileMapper<'_>,
    other: &mut FileMapper<'_>,
    steps: &[(Run, Step)],
) -> bool
    requires one { one.old.page_bytes ≡ 512 }
    requires other { other.old.page_bytes ≡ 512 }
    ensures one { one.new.page_bytes ≡ one.old.page_bytes }
    ensures other { other.new.page_bytes ≡ other.old.page_bytes }
{
    for (run, step) in steps {
        if !holds_of(one, other, *run, step) {
            return false;
        }
    }
    true
}

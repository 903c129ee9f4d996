// Whole runs over segments in memory: what is answered, and what the segments hold then.
ghost use Rattle.std.specs.Prelude.{◌≡◌, ◌≤◌, ◌<◌, ◌*◌, ◌-◌, ◌^◌, length, All, IfOk};

use played_scripts::two_pages;
use replay::{Status, run};
use std::alloc::Global;
use std::process::Abort;
use vm_ids::{NoMemory, PAGE, PageNo, SegId};
use vm_port::{CallKind, CallNo, Clock, ListedTurns, MemoryMapper, MemorySink, MemorySource};
use worked_scripts::segments;

// Slots enough for each script here.
const SLOTS: u32 = 512;

// A script over these segments at six frames, where these pages are denied for writing and these
// calls fail. It gives the mapper as it is then.
fn play(
    rt: &impl Abort,
    alloc: Global,
    script: &str,
    replies: &str,
    segments: &[Vec<u8>],
    denied: &[(SegId, PageNo)],
    fails: &[CallNo],
) -> Result<MemoryMapper, NoMemory>
    requires few { length segments.now < 2 ^ 32 }
    requires pages { All (λ s. length s.items ≤ (2 ^ 32 - 1) * PAGE) segments.now }
{
    let mut mapper = MemoryMapper::new(alloc, segments, denied, SLOTS, fails, PAGE as u32)?;
    let mut source = MemorySource::new(script.as_bytes(), &[]);
    let mut sink = MemorySink::new(alloc, 4096, &[])?;
    let mut chooser = Clock::new();
    let words = ["run", "--frames", "6"];
    let status = run(
        alloc,
        &words,
        &mut source,
        &mut sink,
        &mut mapper,
        &mut chooser,
        &mut ListedTurns::new(&[]),
    );
    assert_eq!(rt; status, Status::Done, "{script}");
    assert_eq!(rt; sink.written(), replies.as_bytes(), "{script}");
    Ok(mapper)
}

// So many zero bytes.
fn zeros(alloc: Global, bytes: usize) -> Result<Vec<u8>, NoMemory>
    ensures { IfOk result (λ v. length v.items ≡ bytes) }
{
    Ok(vec![in alloc; 0u8; bytes]?)
}

// A page of a segment begins with these bytes.
fn begins(rt: &impl Abort, mapper: &MemoryMapper, seg: SegId, page: PageNo, bytes: &[u8]) {
    assert!(rt; mapper.has_page(seg, page));
    let front = mapper.page(seg, page).get(..bytes.len());
    assert_eq!(rt; front, Some(bytes));
}

#[test]
fn a_copy_outlives_the_cache_of_its_segment(rt: HostRuntime) -> Result<(), NoMemory> {
    let alloc = rt.alloc();
    let zeros = [0u8].to_vec(alloc)?;
    let segments = [
        zeros.clone()?,
        zeros.clone()?,
        zeros,
        [0x41u8, 0x42].to_vec(alloc)?,
    ];
    let mapper = play(
        &rt,
        alloc,
        segments::SEGMENT_REOPENED,
        segments::SEGMENT_REOPENED_REPLIES,
        &segments,
        &[],
        &[],
    )?;
    begins(&rt, &mapper, SegId(4), PageNo(0), &[0x5a, 0x42, 0]);
    Ok(())
}

#[test]
fn what_was_flushed_is_there_after_invalidate(rt: HostRuntime) -> Result<(), NoMemory> {
    let segments = [[0x41u8].to_vec(rt.alloc())?];
    let mapper = play(
        &rt,
        rt.alloc(),
        segments::INVALIDATE_AND_FLUSH,
        segments::INVALIDATE_AND_FLUSH_REPLIES,
        &segments,
        &[],
        &[],
    )?;
    begins(&rt, &mapper, SegId(1), PageNo(0), &[0x58, 0]);
    play(
        &rt,
        rt.alloc(),
        segments::REFUSED_MOVES,
        segments::REFUSED_MOVES_REPLIES,
        &segments,
        &[],
        &[],
    )?;
    Ok(())
}

#[test]
fn a_denied_page_is_not_written(rt: HostRuntime) -> Result<(), NoMemory> {
    let segments = [two_pages(rt.alloc(), 0x41, 0x42)?];
    let mapper = play(
        &rt,
        rt.alloc(),
        segments::DENIED_PAGE,
        segments::DENIED_PAGE_REPLIES,
        &segments,
        &[(SegId(1), PageNo(1))],
        &[],
    )?;
    begins(&rt, &mapper, SegId(1), PageNo(0), &[0x77, 0]);
    begins(&rt, &mapper, SegId(1), PageNo(1), &[0x42, 0]);
    Ok(())
}

#[test]
fn a_save_that_fails_leaves_the_cache(rt: HostRuntime) -> Result<(), NoMemory> {
    let segments = [zeros(rt.alloc(), 2 * PAGE)?];
    let fails = [CallNo {
        kind: CallKind::PullIn,
        nth: 2,
    }];
    play(
        &rt,
        rt.alloc(),
        segments::A_SAVE_FAILS,
        segments::A_SAVE_FAILS_REPLIES,
        &segments,
        &[],
        &fails,
    )?;
    Ok(())
}

#[test]
fn text_is_shared_and_data_forked_in_six_frames(rt: HostRuntime) -> Result<(), NoMemory> {
    let mut text = zeros(rt.alloc(), 2 * PAGE)?;
    text[0] = 0x7f;
    text[1] = 0x45;
    play(
        &rt,
        rt.alloc(),
        segments::TEXT_SHARED_AND_DATA_FORKED,
        segments::TEXT_SHARED_AND_DATA_FORKED_REPLIES,
        &[text],
        &[],
        &[],
    )?;
    Ok(())
}

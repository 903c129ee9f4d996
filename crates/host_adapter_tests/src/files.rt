// Segments and a swap area in files.
use crate::folders::{mapper_over, new_folder, path_in};
use crate::running::is_replied;
use crate::steps::{Run, Step, all_hold, hold};
use std::os::unix::fs::symlink;
use std::{fs, io};
use vm_ids::{PAGE, PageNo, SegId, SlotId};
use vm_port::Failed;

const SEG: SegId = SegId(1);

const NO_FILE: SegId = SegId(3);

const FRONT: PageNo = PageNo(0);

const BACK: PageNo = PageNo(1);

const TAIL: PageNo = PageNo(2);

// Of 1,030 bytes the last page has 6, and zeros behind them. A folder is no segment.
#[test]
fn files_are_segments_of_whole_pages(rt: HostRuntime) -> io::Result<()> {
    let folder = new_folder(&rt, "segments")?;
    fs::write(&rt, path_in(&rt, &folder, "seg.1")?, [7u8; 1030].as_slice())?;
    fs::write(&rt, path_in(&rt, &folder, "seg.2")?, "")?;
    fs::create_dir(&rt, path_in(&rt, &folder, "seg.4")?)?;
    let mut mapper = mapper_over(&rt, &folder, 512)?;
    let steps = [
        Step::Size(SEG, Ok(Some(3))),
        Step::Size(SegId(2), Ok(Some(0))),
        Step::Size(NO_FILE, Ok(None)),
        Step::Size(SegId(4), Err(Failed)),
        Step::PullIn(SEG, TAIL, Ok((7, 0))),
        Step::GetWriteAccess(SEG, FRONT, Ok(true)),
        Step::PushOut(SEG, TAIL, 9, Ok(())),
        Step::PullIn(SEG, TAIL, Ok((9, 9))),
        Step::Size(SEG, Ok(Some(3))),
        Step::PushOut(NO_FILE, FRONT, 9, Err(Failed)),
        Step::Size(NO_FILE, Ok(None)),
    ];
    assert!(&rt; hold(&mut mapper, &steps));
    fs::remove_dir_all(&rt, folder)
}

#[test]
fn a_segment_is_the_file_that_was_opened(rt: HostRuntime) -> io::Result<()> {
    let folder = new_folder(&rt, "replaced")?;
    let file = path_in(&rt, &folder, "seg.1")?;
    let other = path_in(&rt, &folder, "other")?;
    fs::write(&rt, file.as_str(), [7u8; 512].as_slice())?;
    fs::write(&rt, other.as_str(), [9u8; 1024].as_slice())?;
    let mut mapper = mapper_over(&rt, &folder, 512)?;
    let opens = [Step::Size(SEG, Ok(Some(1)))];
    assert!(&rt; hold(&mut mapper, &opens));
    fs::rename(&rt, other.as_str(), file.as_str())?;
    let steps = [
        Step::PullIn(SEG, FRONT, Ok((7, 7))),
        Step::Size(SEG, Ok(Some(2))),
        Step::PullIn(SEG, FRONT, Ok((9, 9))),
    ];
    assert!(&rt; hold(&mut mapper, &steps));
    fs::remove_dir_all(&rt, folder)
}

#[test]
fn a_segment_that_was_cut_is_no_zeros(rt: HostRuntime) -> io::Result<()> {
    let folder = new_folder(&rt, "cut")?;
    let file = path_in(&rt, &folder, "seg.1")?;
    fs::write(&rt, file.as_str(), [7u8; 1024].as_slice())?;
    let mut mapper = mapper_over(&rt, &folder, 512)?;
    let opens = [Step::Size(SEG, Ok(Some(2)))];
    assert!(&rt; hold(&mut mapper, &opens));
    fs::write(&rt, file.as_str(), [7u8; 1000].as_slice())?;
    let steps = [
        Step::PullIn(SEG, FRONT, Ok((7, 7))),
        Step::PullIn(SEG, BACK, Err(Failed)),
        Step::PushOut(SEG, BACK, 9, Err(Failed)),
        Step::Size(SEG, Ok(Some(2))),
        Step::PushOut(SEG, BACK, 9, Ok(())),
    ];
    assert!(&rt; hold(&mut mapper, &steps));
    fs::remove_dir_all(&rt, folder)
}

#[test]
fn a_segment_is_written_by_one_run(rt: HostRuntime) -> io::Result<()> {
    let folder = new_folder(&rt, "runs")?;
    fs::write(&rt, path_in(&rt, &folder, "seg.1")?, [7u8; 512].as_slice())?;
    let mut one = mapper_over(&rt, &folder, 512)?;
    let mut other = mapper_over(&rt, &folder, 512)?;
    let steps = [
        (Run::One, Step::Size(SEG, Ok(Some(1)))),
        (Run::One, Step::GetWriteAccess(SEG, FRONT, Ok(true))),
        (Run::Other, Step::Size(SEG, Err(Failed))),
        (Run::One, Step::Size(SEG, Ok(Some(1)))),
        (Run::Other, Step::Size(SEG, Ok(Some(1)))),
        (Run::One, Step::GetWriteAccess(SEG, FRONT, Err(Failed))),
        (Run::One, Step::PullIn(SEG, FRONT, Ok((7, 7)))),
    ];
    assert!(&rt; all_hold(&mut one, &mut other, &steps));
    fs::remove_dir_all(&rt, folder)
}

// The name of the swap area is taken, first by a file and then by a link that leads nowhere.
#[test]
fn a_swap_area_is_of_one_run_alone(rt: HostRuntime) -> io::Result<()> {
    let folder = new_folder(&rt, "swap")?;
    let swap = path_in(&rt, &folder, "swap")?;
    let mut one = mapper_over(&rt, &folder, 512)?;
    let mut other = mapper_over(&rt, &folder, 512)?;
    fs::write(&rt, swap.as_str(), "mine")?;
    let fills = [
        (Run::One, Step::SwapIn(SlotId(0), Err(Failed))),
        (Run::One, Step::SwapOut(SlotId(5), 8, Ok(()))),
    ];
    assert!(&rt; all_hold(&mut one, &mut other, &fills));
    assert_eq!(&rt; fs::read(&rt, swap.as_str())?.len(), 4);
    fs::remove_file(&rt, swap.as_str())?;
    symlink(&rt, "nowhere", swap.as_str())?;
    let reads = [
        (Run::Other, Step::SwapOut(SlotId(5), 9, Ok(()))),
        (Run::One, Step::SwapIn(SlotId(5), Ok((8, 8)))),
        (Run::One, Step::SwapIn(SlotId(6), Err(Failed))),
    ];
    assert!(&rt; all_hold(&mut one, &mut other, &reads));
    fs::remove_file(&rt, swap.as_str())?;
    fs::remove_dir(&rt, folder)
}

#[test]
fn a_swap_area_is_in_a_folder(rt: HostRuntime) -> io::Result<()> {
    let folder = new_folder(&rt, "nowhere")?;
    let mut mapper = mapper_over(&rt, &path_in(&rt, &folder, "none")?, 512)?;
    let fills = [Step::SwapOut(SlotId(5), 8, Err(Failed))];
    assert!(&rt; hold(&mut mapper, &fills));
    fs::remove_dir(&rt, folder)
}

// Four pages in three frames: a page is pushed to the swap area at the fourth store, and pulled
// back at the loads.
const SWAPS: &str = "actor
temp 4
map a1 c1 0 4 10000 rw
store a1 10000 01
store a1 11000 02
store a1 12000 03
store a1 13000 04
load a1 10000 1
load a1 11000 1
load a1 12000 1
load a1 13000 1
";

const SWAPS_REPLIES: &str = "1 ok a1
2 ok c1
3 ok r1
4 ok
5 ok
6 ok
7 ok
8 ok 01
9 ok 02
10 ok 03
11 ok 04
";

#[test]
fn a_run_swaps_to_a_file(rt: HostRuntime) -> io::Result<()> {
    let folder = new_folder(&rt, "run")?;
    let mut mapper = mapper_over(&rt, &folder, PAGE as u32)?;
    assert!(&rt; is_replied(&rt, &mut mapper, SWAPS, SWAPS_REPLIES));
    fs::remove_dir(&rt, folder)
}

// A file of one page is opened, mapped, stored to and pushed.
const MAPS: &str = "actor
open 1
map a1 c1 0 1 10000 rw
load a1 10000 5
store a1 10000 48
sync c1 0 1
load a1 10000 5
";

const MAPS_REPLIES: &str = "1 ok a1
2 ok c1
3 ok r1
4 ok 68656c6c6f
5 ok
6 ok
7 ok 48656c6c6f
";

#[test]
fn a_run_writes_a_mapped_file(rt: HostRuntime) -> io::Result<()> {
    let folder = new_folder(&rt, "mapped")?;
    let file = path_in(&rt, &folder, "seg.1")?;
    fs::write(&rt, file.as_str(), "hello")?;
    let mut mapper = mapper_over(&rt, &folder, PAGE as u32)?;
    assert!(&rt; is_replied(&rt, &mut mapper, MAPS, MAPS_REPLIES));
    let bytes = fs::read(&rt, file.as_str())?;
    assert_eq!(&rt; bytes.len(), PAGE);
    assert!(&rt; bytes.starts_with(b"Hello\0"));
    fs::remove_dir_all(&rt, folder)
}

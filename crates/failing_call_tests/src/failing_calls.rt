// Scripts over mappers of which one call fails, or two: the lines that tell no fault are answered
// as if those that tell one weren't there, and chains and counts are those of the page forest that
// follows the replies.
ghost use Rattle.std.specs.Prelude.{◌≡◌};

use crate::following::Follower;
use plain_machine::Plain;
use played_scripts::{one_segment, said, text, written};
use replay::Status;
use std::alloc::Global;
use std::process::Abort;
use std::test::Fail;
use vm_ids::{NoMemory, PAGE, PageNo, SegId};
use vm_port::{CallKind, CallNo, MemoryMapper, MemorySink};
use worked_scripts::segments::{
    A_SAVE_FAILS, A_SAVE_FAILS_REPLIES, HOSTILE, HOSTILE_REPLIES, SAVES, SAVES_REPLIES,
    TEXT_SHARED_AND_DATA_FORKED, TEXT_SHARED_AND_DATA_FORKED_REPLIES,
};
use worked_scripts::{copies, frames};

// What a run writes for a script at three, four or five page frames.
fn written_at(
    alloc: Global,
    frames: u32,
    script: &str,
    mapper: &mut MemoryMapper,
) -> Result<MemorySink, Status>
    requires { mapper.old.page_bytes ≡ PAGE }
{
    match frames {
        3 => written(alloc, &["run", "--frames", "3"], script, mapper),
        4 => written(alloc, &["run", "--frames", "4"], script, mapper),
        _ => written(alloc, &["run", "--frames", "5"], script, mapper),
    }
}

fn tells_a_fault(reply: &str) -> bool {
    said(reply).starts_with("fault ")
}

// The script with a line that is no command in place of each that these replies answer by a fault.
fn without_faults(alloc: Global, script: &str, replies: &str) -> Result<String, NoMemory> {
    let mut rest = String::new(alloc);
    for (line, reply) in script.lines().zip(replies.lines()) {
        rest.push_str(if tells_a_fault(reply) { "none" } else { line })?;
        rest.push_str("\n")?;
    }
    Ok(rest)
}

// Two mappers hold the same segment.
fn hold_the_same(rt: &impl Abort, one: &MemoryMapper, other: &MemoryMapper) {
    for page in [PageNo(0), PageNo(1)] {
        assert!(rt; one.has_page(SegId(1), page));
        assert!(rt; other.has_page(SegId(1), page));
        assert_eq!(rt; one.page(SegId(1), page), other.page(SegId(1), page));
    }
}

// What has to be said to a line: what the page forest tells, where the line asks for that and the
// machine doesn't refuse it, and else what the machine answers.
fn wanted_of(
    alloc: Global,
    follower: &Follower,
    line: &str,
    answer: &str,
) -> Result<String, NoMemory> {
    let answer = said(answer);
    if !answer.starts_with("no ") {
        if let Some(told) = follower.tells(alloc, line)? {
            return Ok(told);
        }
    }
    let mut wanted = String::new(alloc);
    wanted.push_str(answer)?;
    Ok(wanted)
}

// The replies that tell a fault. Each other one says what is wanted of it, after the replies
// before.
fn compared(
    rt: &impl Abort,
    alloc: Global,
    script: &str,
    replies: &str,
    machine: &str,
) -> Result<String, NoMemory> {
    let mut follower = Follower::new(alloc, 2);
    let mut faults = String::new(alloc);
    assert_eq!(rt; replies.lines().count(), script.lines().count());
    for ((line, reply), answer) in script.lines().zip(replies.lines()).zip(machine.lines()) {
        if tells_a_fault(reply) {
            faults.push_str(reply)?;
            faults.push_str("\n")?;
        } else {
            let wanted = wanted_of(alloc, &follower, line, answer)?;
            assert_eq!(rt; said(reply), wanted.as_str(), "{line}");
        }
        follower.follow(line, said(reply))?;
    }
    Ok(faults)
}

// The lines that tell a fault where these calls fail. Without those lines the machine that copies
// at once answers the same, and its segment is the same.
fn faults_of(
    rt: &impl Abort,
    alloc: Global,
    frames: u32,
    script: &str,
    fails: &[CallNo],
) -> Result<String, Fail> {
    let mut mapper = one_segment(alloc, fails)?;
    let sink = written_at(alloc, frames, script, &mut mapper)?;
    let replies = text(&sink);
    let rest = without_faults(alloc, script, replies)?;
    let right = one_segment(alloc, &[])?;
    let mut plain = Plain::new(alloc, frames, PAGE as u32, right);
    let at_once = plain.replies(alloc, rest.as_str())?;
    hold_the_same(rt, &mapper, plain.mapper());
    Ok(compared(rt, alloc, script, replies, text(&at_once))?)
}

// The plain page forest tells what was worked out by hand.
#[test]
fn worked_scripts_tell_of_the_page_forest(rt: HostRuntime) -> Result<(), NoMemory> {
    for (script, replies) in [
        (
            copies::TREE_COPY_OF_NINE_PAGES,
            copies::TREE_COPY_OF_NINE_PAGES_REPLIES,
        ),
        (
            copies::COPIED_THREE_TIMES,
            copies::COPIED_THREE_TIMES_REPLIES,
        ),
        (copies::STUBS, copies::STUBS_REPLIES),
        (copies::THERE_AND_BACK, copies::THERE_AND_BACK_REPLIES),
        (copies::COPY_OF_A_COPY, copies::COPY_OF_A_COPY_REPLIES),
        (
            copies::DEAD_SOURCE_THEN_A_MERGE,
            copies::DEAD_SOURCE_THEN_A_MERGE_REPLIES,
        ),
        (
            copies::MOVE_OF_A_COPIED_PAGE,
            copies::MOVE_OF_A_COPIED_PAGE_REPLIES,
        ),
        (
            copies::TREE_CHILD_BEFORE_STUBS,
            copies::TREE_CHILD_BEFORE_STUBS_REPLIES,
        ),
        (
            copies::MOVE_INSIDE_ONE_CACHE,
            copies::MOVE_INSIDE_ONE_CACHE_REPLIES,
        ),
        (frames::LOCKS, frames::LOCKS_REPLIES),
        (A_SAVE_FAILS, A_SAVE_FAILS_REPLIES),
        (
            TEXT_SHARED_AND_DATA_FORKED,
            TEXT_SHARED_AND_DATA_FORKED_REPLIES,
        ),
    ] {
        compared(&rt, rt.alloc(), script, replies, replies)?;
    }
    Ok(())
}

// Of each kind the first call fails, then the second, and so on until none fails.
#[test]
fn each_call_fails_in_turn(rt: HostRuntime) -> Result<(), Fail> {
    let sink = written(
        rt.alloc(),
        &["run", "--frames", "4"],
        HOSTILE,
        &mut one_segment(rt.alloc(), &[])?,
    )?;
    assert_eq!(&rt; sink.written(), HOSTILE_REPLIES.as_bytes());
    for (kind, faults) in [
        (CallKind::Size, ["2 fault mapper open\n", ""].as_slice()),
        (
            CallKind::PullIn,
            &[
                "7 fault mapper page 0\n",
                "12 fault mapper page 1\n",
                "20 fault mapper page 0\n",
                "25 fault mapper page 1\n",
                "",
            ],
        ),
        (CallKind::PushOut, &["9 fault mapper page 0\n", ""]),
        (CallKind::Access, &["7 fault mapper access 0\n", ""]),
        (CallKind::SwapIn, &[""]),
        (
            CallKind::SwapOut,
            &[
                "19 fault mapper victim\n",
                "19 fault mapper victim\n",
                "19 fault mapper victim\n",
                "",
            ],
        ),
    ] {
        for (nth, wanted) in (1..16u32).zip(faults) {
            let found = faults_of(&rt, rt.alloc(), 4, HOSTILE, &[CallNo { kind, nth }])?;
            assert_eq!(&rt; found.as_str(), *wanted, "{kind:?} {nth}");
        }
    }
    Ok(())
}

// Of each call of a kind the line that tells a fault where it fails, in the order of the calls.
fn each_fails(
    rt: &impl Abort,
    alloc: Global,
    frames: u32,
    kind: CallKind,
) -> Result<Vec<String>, Fail> {
    let mut faults = Vec::new(alloc);
    for nth in 1..100u32 {
        let fault = faults_of(rt, alloc, frames, SAVES, &[CallNo { kind, nth }])?;
        if fault.is_empty() {
            return Ok(faults);
        }
        assert_eq!(rt; fault.as_str().lines().count(), 1, "{kind:?} {nth}");
        faults.push(fault)?;
    }
    panic!(rt; "each call fails");
}

// The lines that tell a fault where one call fails, by its kind.
#[derive(Drop)]
struct Faults {
    pull_in: Vec<String>,
    swap_in: Vec<String>,
    push_out: Vec<String>,
    swap_out: Vec<String>,
}

// Whether some of these faults is told by this line.
fn is_told(faults: &[String], line: &str) -> bool {
    for fault in faults {
        if fault.as_str().trim_end() == line {
            return true;
        }
    }
    false
}

// Each pull and each push of the script fails. There are as many as are made where none does, and
// these lines are among the faults of the pulls.
fn pulls_and_pushes_fail(
    rt: &impl Abort,
    alloc: Global,
    frames: u32,
    wanted: &[&str],
) -> Result<Faults, Fail> {
    let faults = Faults {
        pull_in: each_fails(rt, alloc, frames, CallKind::PullIn)?,
        swap_in: each_fails(rt, alloc, frames, CallKind::SwapIn)?,
        push_out: each_fails(rt, alloc, frames, CallKind::PushOut)?,
        swap_out: each_fails(rt, alloc, frames, CallKind::SwapOut)?,
    };
    let mut mapper = one_segment(alloc, &[])?;
    written_at(alloc, frames, SAVES, &mut mapper)?;
    let pulls = faults.pull_in.len().saturating_add(faults.swap_in.len());
    let pushes = faults.push_out.len().saturating_add(faults.swap_out.len());
    assert_eq!(rt;
        (pulls as u64, pushes as u64),
        (mapper.pulls(), mapper.pushes())
    );
    assert!(rt; !faults.swap_in.is_empty() && !faults.push_out.is_empty());
    for line in wanted {
        assert!(rt; is_told(faults.pull_in.as_slice(), *line), "{line}");
    }
    Ok(faults)
}

// Each call of a kind fails together with each of another one. Where only one of the two is reached
// its fault is the only one, and else there are two.
fn each_pair_fails(
    rt: &impl Abort,
    alloc: Global,
    frames: u32,
    (kind, faults): (CallKind, &[String]),
    (other, others): (CallKind, &[String]),
) -> Result<(), Fail> {
    for (nth, fault) in (1..100u32).zip(faults) {
        for (place, behind) in (1..100u32).zip(others) {
            let fails = [
                CallNo { kind, nth },
                CallNo {
                    kind: other,
                    nth: place,
                },
            ];
            let both = faults_of(rt, alloc, frames, SAVES, &fails)?;
            let two = both.as_str().lines().count() == 2;
            let alone = both.as_str() == fault.as_str() || both.as_str() == behind.as_str();
            assert!(rt; two || alone, "{fails:?}");
        }
    }
    Ok(())
}

// Each pull fails with each push.
fn pairs_fail(rt: &impl Abort, alloc: Global, frames: u32, faults: &Faults) -> Result<(), Fail> {
    let push_out = (CallKind::PushOut, faults.push_out.as_slice());
    let swap_out = (CallKind::SwapOut, faults.swap_out.as_slice());
    for pull in [
        (CallKind::PullIn, faults.pull_in.as_slice()),
        (CallKind::SwapIn, faults.swap_in.as_slice()),
    ] {
        each_pair_fails(rt, alloc, frames, pull, push_out)?;
        each_pair_fails(rt, alloc, frames, pull, swap_out)?;
    }
    Ok(())
}

// The saves of a copy, a move, an invalidate and a destroy, of which each needs a pull.
const SAVE_FAULTS: [&str; 7] = [
    "10 fault mapper save 0",
    "10 fault mapper save 1",
    "17 fault mapper save 0",
    "28 fault mapper save 0",
    "28 fault mapper save 1",
    "39 fault mapper save 0",
    "39 fault mapper save 1",
];

#[test]
fn saves_and_swaps_fail_in_three_frames(rt: HostRuntime) -> Result<(), Fail> {
    let faults = pulls_and_pushes_fail(&rt, rt.alloc(), 3, &SAVE_FAULTS)?;
    pairs_fail(&rt, rt.alloc(), 3, &faults)
}

#[test]
fn saves_and_swaps_fail_in_four_frames(rt: HostRuntime) -> Result<(), Fail> {
    let mut mapper = one_segment(rt.alloc(), &[])?;
    let sink = written_at(rt.alloc(), 4, SAVES, &mut mapper)?;
    assert_eq!(&rt; sink.written(), SAVES_REPLIES.as_bytes());
    let faults = pulls_and_pushes_fail(&rt, rt.alloc(), 4, &SAVE_FAULTS)?;
    pairs_fail(&rt, rt.alloc(), 4, &faults)
}

// Two pages can be locked, of which each has to be brought in.
#[test]
fn locks_fail_in_five_frames(rt: HostRuntime) -> Result<(), Fail> {
    let wanted = ["35 fault mapper page 4", "35 fault mapper page 5"];
    pulls_and_pushes_fail(&rt, rt.alloc(), 5, &wanted)?;
    Ok(())
}

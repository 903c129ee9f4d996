// Scripts over a manager without paging: worked ones, all that the demand-paged manager has worked
// ones for, drawn ones over both, and calls of the mapper that fail.
ghost use Rattle.std.specs.Prelude.{◌≡◌, map};
ghost use Rattle.replay.specs.Commanding.{page_size_of};

use drawn_numbers::Draws;
use played_scripts::{
    Touched, are_answered_beside_faults, as_answered, drawn_script, one_segment, said, text,
    written,
};
use std::alloc::Global;
use std::process::Abort;
use std::test::Fail;
use vm_ids::{NoMemory, PAGE};
use vm_port::{CallKind, CallNo};
use worked_scripts::{accesses, copies, frames, segments};

// Three of four frames are taken, and two pages more find no room till a cache goes.
const FOUR_FRAMES: &str = "actor
temp 3
temp 2
temp 1
map a1 c1 0 3 10000 rw
store a1 10000 01
copy c1 0 c2 0 1
store a1 10000 02
map a1 c2 0 1 20000 r
load a1 20000 1
unmap r1
destroy c1
temp 2
chain c2 0
stat
";

const FOUR_FRAMES_REPLIES: &str = "1 ok a1
2 ok c1
3 no Full
4 ok c2
5 ok r1
6 ok
7 ok
8 ok
9 ok r2
10 ok 01
11 ok
12 ok
13 ok c3
14 no BadLine
15 no BadLine
";

// The frames of an opening that failed are free again, and pages are pulled again only into frames
// that are free.
const PULLED_AGAIN: &str = "open 1
temp 4
temp 3
open 1
temp 1
destroy c1
temp 1
open 1
actor
map a1 c3 0 2 10000 rw
store a1 10000 58
invalidate c3 0 1
load a1 10000 1
store a1 11000 59
invalidate c3 0 2
load a1 11000 1
";

const PULLED_AGAIN_REPLIES: &str = "1 fault mapper open
2 ok c1
3 no Full
4 no Full
5 no Full
6 ok
7 ok c2
8 ok c3
9 ok a1
10 ok r1
11 ok
12 ok
13 ok 41
14 ok
15 no Full
16 ok 59
";

// These words write these replies for a script over one segment of two pages.
fn replies_are(
    rt: &impl Abort,
    alloc: Global,
    words: &[&str],
    script: &str,
    replies: &str,
    fails: &[CallNo],
) -> Result<(), Fail>
    requires { PAGE ≡ page_size_of (map (λ w. w.now) words.now) }
{
    let mut mapper = one_segment(alloc, fails)?;
    let sink = written(alloc, words, script, &mut mapper)?;
    assert_eq!(rt; text(&sink), replies);
    Ok(())
}

#[test]
fn worked_scripts_without_paging(rt: HostRuntime) -> Result<(), Fail> {
    let alloc = rt.alloc();
    let pull = CallNo {
        kind: CallKind::PullIn,
        nth: 2,
    };
    let four = ["flat", "--frames", "4"];
    replies_are(&rt, alloc, &four, FOUR_FRAMES, FOUR_FRAMES_REPLIES, &[])?;
    replies_are(
        &rt,
        alloc,
        &four,
        PULLED_AGAIN,
        PULLED_AGAIN_REPLIES,
        &[pull],
    )
}

// The lines that ask for no page forest, and take no pages from their segment again.
fn without_forest(alloc: Global, script: &str) -> Result<String, NoMemory> {
    let mut plain = String::new(alloc);
    for line in script.lines() {
        let asks = line.starts_with("chain") || line == "stat" || line.starts_with("invalidate");
        if !asks {
            plain.push_str(line)?;
            plain.push_str("\n")?;
        }
    }
    Ok(plain)
}

// The two managers, by their words, answer such lines of a script the same, up to the first `Full`,
// in the order in which the demand-paged one answers them. How many lines they do.
fn answer_the_same(
    rt: &impl Abort,
    alloc: Global,
    flat: &[&str],
    run: &[&str],
    script: &str,
) -> Result<u32, Fail>
    requires flat { PAGE ≡ page_size_of (map (λ w. w.now) flat.now) }
    requires run { PAGE ≡ page_size_of (map (λ w. w.now) run.now) }
{
    let plain = without_forest(alloc, script)?;
    let mut mapper = one_segment(alloc, &[])?;
    let mut other = one_segment(alloc, &[])?;
    let second = written(alloc, run, plain.as_str(), &mut other)?;
    let answered = as_answered(alloc, plain.as_str(), text(&second))?;
    let first = written(alloc, flat, answered.as_str(), &mut mapper)?;
    let mut same = 0u32;
    for (reply, wanted) in text(&first).lines().zip(text(&second).lines()) {
        if said(reply) == "no Full" {
            break;
        }
        assert_eq!(rt; said(reply), said(wanted));
        same = same.saturating_add(1);
    }
    Ok(same)
}

#[test]
fn both_managers_answer_worked_scripts_the_same(rt: HostRuntime) -> Result<(), Fail> {
    for script in [
        accesses::LEAST_SUCCESS,
        accesses::EMPTY_SCRIPT,
        accesses::ZEROS,
        accesses::BORDERS,
        copies::TREE_COPY_OF_NINE_PAGES,
        copies::COPIED_THREE_TIMES,
        copies::STUBS,
        copies::THERE_AND_BACK,
        copies::COPY_OF_A_COPY,
        copies::DEAD_SOURCE_THEN_A_MERGE,
        frames::THREE_FRAMES,
        copies::MOVE_OF_A_COPIED_PAGE,
        copies::TREE_CHILD_BEFORE_STUBS,
        copies::MOVE_INSIDE_ONE_CACHE,
        copies::OVERLAP,
        accesses::REFUSALS,
        frames::TRANSLATION_TO_THE_SOURCE,
        frames::LOCKS,
        segments::REFUSED_MOVES,
        segments::INVALIDATE_AND_FLUSH,
    ] {
        let lines = without_forest(rt.alloc(), script)?.as_str().lines().count();
        let (flat, run) = (["flat", "--frames", "64"], ["run", "--frames", "64"]);
        let same = answer_the_same(&rt, rt.alloc(), &flat, &run, script)?;
        assert_eq!(&rt; same as usize, lines, "{script}");
        let (flat, run) = (["flat", "--frames", "12"], ["run", "--frames", "12"]);
        let _ = answer_the_same(&rt, rt.alloc(), &flat, &run, script)?;
    }
    Ok(())
}

#[test]
fn both_managers_answer_drawn_scripts_the_same(rt: HostRuntime) -> Result<(), Fail> {
    for seed in 0..12 {
        let mut draws = Draws::new(seed);
        let script = drawn_script(rt.alloc(), &mut draws, Touched::All)?;
        let lines = script.as_str().lines().count();
        let (flat, run) = (["flat", "--frames", "27"], ["run", "--frames", "27"]);
        let same = answer_the_same(&rt, rt.alloc(), &flat, &run, script.as_str())?;
        assert_eq!(&rt; same as usize, lines);
        let (flat, run) = (["flat", "--frames", "26"], ["run", "--frames", "26"]);
        let same = answer_the_same(&rt, rt.alloc(), &flat, &run, script.as_str())?;
        assert_eq!(&rt; same, 5);
    }
    Ok(())
}

const ONE_SEGMENT: &str = "open 1
actor
map a1 c1 0 5 10000 rw
store a1 10000 61
store a1 11000 62
sync c1 0 5
store a1 12000 63
temp 4
map a1 c2 0 4 20000 rw
copy c1 0 c2 0 4
load a1 20000 1
flush c1 0 5
store a1 11000 64
invalidate c1 1 1
load a1 11000 1
copy c2 0 c1 1 4
unmap r1
destroy c1
open 1
map a1 c3 0 5 10000 r
load a1 10000 1
load a1 12000 1
";

#[test]
fn calls_without_paging_fail_in_turn(rt: HostRuntime) -> Result<(), Fail> {
    let words = ["flat", "--frames", "20"];
    for kind in [
        CallKind::Size,
        CallKind::PullIn,
        CallKind::Access,
        CallKind::PushOut,
    ] {
        let are = are_answered_beside_faults(rt.alloc(), &words, ONE_SEGMENT, kind)?;
        assert!(&rt; are, "{kind:?}");
    }
    Ok(())
}

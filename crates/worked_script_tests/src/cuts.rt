// Worked scripts have their replies, however their reads are cut.
use crate::hundred_pages;
use played_scripts::{run_cut, swap_area};
use replay::{Status, run};
use std::alloc::Global;
use std::process::Abort;
use vm_ids::{NoMemory, PAGE};
use vm_port::{CallKind, CallNo, Clock, ListedTurns, MemorySink, MemorySource};
use worked_scripts::{accesses, copies, frames};

// A script at so many frames has these replies, however its reads are cut.
fn has_its_replies(
    rt: &impl Abort,
    alloc: Global,
    frames: &str,
    script: &str,
    replies: &str,
) -> Result<(), NoMemory> {
    for most in [1, 7, 4096] {
        let mut sink = MemorySink::new(alloc, 4096, &[])?;
        let status = run_cut(alloc, frames, script.as_bytes(), most, &mut sink)?;
        assert_eq!(rt; status, Status::Done, "{script}");
        assert_eq!(rt; sink.written(), replies.as_bytes(), "{script}");
    }
    Ok(())
}

#[test]
fn accesses_have_their_replies_however_they_are_cut(rt: HostRuntime) -> Result<(), NoMemory> {
    for (frames, script, replies) in [
        (
            "3",
            accesses::LEAST_SUCCESS,
            accesses::LEAST_SUCCESS_REPLIES,
        ),
        ("8", accesses::EMPTY_SCRIPT, accesses::EMPTY_SCRIPT_REPLIES),
        ("8", accesses::ZEROS, accesses::ZEROS_REPLIES),
        ("8", accesses::BORDERS, accesses::BORDERS_REPLIES),
        ("8", accesses::REFUSALS, accesses::REFUSALS_REPLIES),
        (
            "8",
            "actor\nstat",
            "1 ok a1\n2 stat live 0 working 0 copies 0\n",
        ),
    ] {
        has_its_replies(&rt, rt.alloc(), frames, script, replies)?;
    }
    Ok(())
}

#[test]
fn copies_have_their_replies_however_they_are_cut(rt: HostRuntime) -> Result<(), NoMemory> {
    for (frames, script, replies) in [
        (
            "8",
            copies::TREE_COPY_OF_NINE_PAGES,
            copies::TREE_COPY_OF_NINE_PAGES_REPLIES,
        ),
        (
            "8",
            copies::COPIED_THREE_TIMES,
            copies::COPIED_THREE_TIMES_REPLIES,
        ),
        ("3", copies::LINKS_AS_RUNS, copies::LINKS_AS_RUNS_REPLIES),
        ("8", copies::STUBS, copies::STUBS_REPLIES),
        ("8", copies::THERE_AND_BACK, copies::THERE_AND_BACK_REPLIES),
        ("8", copies::COPY_OF_A_COPY, copies::COPY_OF_A_COPY_REPLIES),
        (
            "8",
            copies::DEAD_SOURCE_THEN_A_MERGE,
            copies::DEAD_SOURCE_THEN_A_MERGE_REPLIES,
        ),
        (
            "8",
            copies::MOVE_OF_A_COPIED_PAGE,
            copies::MOVE_OF_A_COPIED_PAGE_REPLIES,
        ),
        (
            "8",
            copies::TREE_CHILD_BEFORE_STUBS,
            copies::TREE_CHILD_BEFORE_STUBS_REPLIES,
        ),
        (
            "8",
            copies::MOVE_INSIDE_ONE_CACHE,
            copies::MOVE_INSIDE_ONE_CACHE_REPLIES,
        ),
        ("8", copies::OVERLAP, copies::OVERLAP_REPLIES),
    ] {
        has_its_replies(&rt, rt.alloc(), frames, script, replies)?;
    }
    Ok(())
}

#[test]
fn few_frames_have_their_replies_however_they_are_cut(rt: HostRuntime) -> Result<(), NoMemory> {
    for (frames, script, replies) in [
        ("3", frames::THREE_FRAMES, frames::THREE_FRAMES_REPLIES),
        (
            "8",
            frames::TRANSLATION_TO_THE_SOURCE,
            frames::TRANSLATION_TO_THE_SOURCE_REPLIES,
        ),
        ("8", frames::LOCKS, frames::LOCKS_REPLIES),
        (
            "3",
            frames::LIVE_PAGE_LIMIT,
            frames::LIVE_PAGE_LIMIT_REPLIES,
        ),
    ] {
        has_its_replies(&rt, rt.alloc(), frames, script, replies)?;
    }
    Ok(())
}

#[test]
fn at_most_256_actors_are_alive(rt: HostRuntime) -> Result<(), NoMemory> {
    let mut script = String::new(rt.alloc());
    let mut replies = String::new(rt.alloc());
    for actor in 1..257u32 {
        script.push_str("actor\n")?;
        let reply = format!(in rt.alloc(); "{actor} ok a{actor}\n")?;
        replies.push_str(reply.as_str())?;
    }
    script.push_str("actor\nexit a1\nactor\n")?;
    replies.push_str("257 no TooMany\n258 ok\n259 ok a257\n")?;
    has_its_replies(&rt, rt.alloc(), "8", script.as_str(), replies.as_str())
}

#[test]
fn a_victim_whose_push_fails_stays(rt: HostRuntime) -> Result<(), NoMemory> {
    let fails = [CallNo {
        kind: CallKind::SwapOut,
        nth: 1,
    }];
    let mut mapper = swap_area(rt.alloc(), PAGE as u32, &fails)?;
    let mut source = MemorySource::new(frames::VICTIMS_PUSH_FAILS.as_bytes(), &[]);
    let mut sink = MemorySink::new(rt.alloc(), 4096, &[])?;
    let words = ["run", "--frames", "3"];
    let mut chooser = Clock::new();
    let status = run(
        rt.alloc(),
        &words,
        &mut source,
        &mut sink,
        &mut mapper,
        &mut chooser,
        &mut ListedTurns::new(&[]),
    );
    assert_eq!(&rt; status, Status::Done);
    assert_eq!(&rt;
        sink.written(),
        frames::VICTIMS_PUSH_FAILS_REPLIES.as_bytes()
    );
    Ok(())
}

// Before the copy and behind it the mapper has had 96 pushes and no pull.
#[test]
fn a_copy_moves_no_bytes(rt: HostRuntime) -> Result<(), NoMemory> {
    let words = ["run", "--frames", "4"];
    let script = hundred_pages::script(rt.alloc())?;
    let replies = hundred_pages::replies(rt.alloc())?;
    for behind in ["copy", "load"] {
        let Some((front, _)) = script.as_str().split_once(behind) else {
            panic!(&rt; "no such line");
        };
        let mut mapper = swap_area(rt.alloc(), PAGE as u32, &[])?;
        let mut source = MemorySource::new(front.as_bytes(), &[]);
        let mut sink = MemorySink::new(rt.alloc(), 4096, &[])?;
        let mut chooser = Clock::new();
        let status = run(
            rt.alloc(),
            &words,
            &mut source,
            &mut sink,
            &mut mapper,
            &mut chooser,
            &mut ListedTurns::new(&[]),
        );
        assert_eq!(&rt; status, Status::Done);
        assert_eq!(&rt; (mapper.pulls(), mapper.pushes()), (0, 96));
    }
    let mut sink = MemorySink::new(rt.alloc(), 4096, &[])?;
    let status = run_cut(rt.alloc(), "4", script.as_bytes(), 4096, &mut sink)?;
    assert_eq!(&rt; status, Status::Done);
    assert_eq!(&rt; sink.written(), replies.as_bytes());
    Ok(())
}

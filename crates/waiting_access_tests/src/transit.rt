// Accesses that wait for their pages: in which order they are answered, by the turns of a
// dispatcher.
ghost use Rattle.std.specs.Prelude.{◌≡◌, map};
ghost use Rattle.replay.specs.Commanding.{page_size_of};

use played_scripts::{swap_area, text, written_by};
use std::alloc::Global;
use std::process::Abort;
use std::test::Fail;
use vm_ids::{NoMemory, PAGE};
use vm_port::{CallKind, CallNo, Chooser, Clock, Listed, ListedTurns, MemoryMapper};

// Two actors wait for a page each.
const TWO_PAGES: &str = "actor
actor
temp 2
map a1 c1 0 2 10000 rw
map a2 c1 0 2 10000 rw
store a1 10000 01
store a1 11000 02
pageout 4
load a1 10000 1
load a2 11000 1
stat
";

// The later one first; and the page of the earlier one doesn't come.
const LATER_FIRST: &str = "1 ok a1
2 ok a2
3 ok c1
4 ok r1
5 ok r2
6 ok
7 ok
8 ok
10 ok 02
9 ok 01
11 stat live 2 working 0 copies 0
";

const FIRST_FAILS: &str = "1 ok a1
2 ok a2
3 ok c1
4 ok r1
5 ok r2
6 ok
7 ok
8 ok
9 fault mapper page 0
10 ok 02
11 stat live 2 working 0 copies 0
";

// A store that needs a page frame beside that of the page it waits for, a load of the same page,
// and a load of another one. All frames have pages that were stored to.
const VICTIM: &str = "actor
actor
actor
temp 1
temp 1
temp 4
map a1 c2 0 1 10000 rw
map a2 c1 0 1 10000 rw
map a3 c3 0 4 20000 rw
store a2 10000 07
store a3 23000 05
copy c1 0 c2 0 1
pageout 4
store a3 20000 01
store a3 21000 02
store a3 22000 03
store a1 10000 09
load a2 10000 1
load a3 23000 1
stat
store a1 10000 09
load a1 10000 1
";

// The push of the second victim fails, when the page has come: the load of it is answered in the
// same delivery, before the next turn.
const VICTIM_STAYS: &str = "1 ok a1
2 ok a2
3 ok a3
4 ok c1
5 ok c2
6 ok c3
7 ok r1
8 ok r2
9 ok r3
10 ok
11 ok
12 ok
13 ok
14 ok
15 ok
16 ok
17 fault mapper victim
18 ok 07
19 ok 05
20 stat live 6 working 0 copies 0
21 ok
22 ok 09
";

// Two stores and a load that wait for one page, which no other page may stay beside in three page
// frames when both stores are done; and a load that waits for another one.
const EVICTED: &str = "actor
actor
actor
actor
temp 1
temp 1
temp 1
temp 1
temp 1
map a1 c2 0 1 10000 rw
map a2 c4 0 1 10000 rw
map a3 c1 0 1 10000 rw
map a4 c5 0 1 10000 rw
store a3 10000 07
store a4 10000 05
copy c1 0 c2 0 1
copy c2 0 c3 0 1
copy c2 0 c4 0 1
pageout 4
store a1 10000 08
store a2 10000 09
load a3 10000 1
load a4 10000 1
stat
";

// The second store evicts the page of the load behind it, which waits for another delivery.
const WAITS_ANEW: &str = "1 ok a1
2 ok a2
3 ok a3
4 ok a4
5 ok c1
6 ok c2
7 ok c3
8 ok c4
9 ok c5
10 ok r1
11 ok r2
12 ok r3
13 ok r4
14 ok
15 ok
16 ok
17 ok
18 ok
19 ok
20 ok
21 ok
23 ok 05
22 ok 07
24 stat live 5 working 0 copies 3
";

// It evicts another page, and the load is answered in the same delivery.
const ANSWERED_AT_ONCE: &str = "1 ok a1
2 ok a2
3 ok a3
4 ok a4
5 ok c1
6 ok c2
7 ok c3
8 ok c4
9 ok c5
10 ok r1
11 ok r2
12 ok r3
13 ok r4
14 ok
15 ok
16 ok
17 ok
18 ok
19 ok
20 ok
21 ok
22 ok 07
23 ok 05
24 stat live 5 working 0 copies 3
";

// A script with these turns and failing calls has these replies.
fn is_answered_so(
    rt: &impl Abort,
    alloc: Global,
    words: &[&str],
    script: &str,
    turns: &[Option<u32>],
    chooser: &mut impl Chooser,
    mapper: &mut MemoryMapper,
    replies: &str,
) -> Result<(), Fail>
    requires { mapper.old.page_bytes ≡ page_size_of (map (λ w. w.now) words.now) }
{
    let mut turns = ListedTurns::new(turns);
    let sink = written_by(alloc, words, script, mapper, chooser, &mut turns)?;
    assert_eq!(rt; text(&sink), replies);
    Ok(())
}

#[test]
fn a_later_answer_overtakes(rt: HostRuntime) -> Result<(), Fail> {
    let first = CallNo {
        kind: CallKind::SwapIn,
        nth: 1,
    };
    for (replies, turns, fails) in [
        (
            LATER_FIRST,
            [None, None, Some(1), None].as_slice(),
            [].as_slice(),
        ),
        (FIRST_FAILS, &[], &[first]),
    ] {
        let mut mapper = swap_area(rt.alloc(), PAGE as u32, fails)?;
        let words = ["run", "--frames", "4"];
        is_answered_so(
            &rt,
            rt.alloc(),
            &words,
            TWO_PAGES,
            turns,
            &mut Clock::new(),
            &mut mapper,
            replies,
        )?;
    }
    Ok(())
}

#[test]
fn others_are_answered_where_a_victim_stays(rt: HostRuntime) -> Result<(), Fail> {
    let fails = [CallNo {
        kind: CallKind::SwapOut,
        nth: 4,
    }];
    let mut mapper = swap_area(rt.alloc(), PAGE as u32, &fails)?;
    let words = ["run", "--frames", "3"];
    let turns = [None, None, None, Some(0), Some(1)];
    is_answered_so(
        &rt,
        rt.alloc(),
        &words,
        VICTIM,
        &turns,
        &mut Clock::new(),
        &mut mapper,
        VICTIM_STAYS,
    )
}

#[test]
fn a_page_may_go_before_its_load_is_looked_at(rt: HostRuntime) -> Result<(), Fail> {
    for (choice, replies, pulls) in [(1, WAITS_ANEW, 3), (0, ANSWERED_AT_ONCE, 2)] {
        let mut mapper = swap_area(rt.alloc(), PAGE as u32, &[])?;
        let words = ["run", "--frames", "3"];
        let turns = [None, None, None, None, Some(0), Some(1)];
        is_answered_so(
            &rt,
            rt.alloc(),
            &words,
            EVICTED,
            &turns,
            &mut Listed::new(&[choice]),
            &mut mapper,
            replies,
        )?;
        assert_eq!(&rt; mapper.pulls(), pulls);
    }
    Ok(())
}

// Each of 256 actors has a page of its own, which it stored to, and loads it when no page is in a
// frame.
fn all_actors(alloc: Global) -> Result<String, NoMemory> {
    let mut script = String::new(alloc);
    script.push_str("temp 256\n")?;
    for actor in 1..257u32 {
        let page = actor - 1;
        script.push_str("actor\n")?;
        let line = format!(in alloc; "map a{actor} c1 {page} 1 10000 rw\n")?;
        script.push_str(line.as_str())?;
        let line = format!(in alloc; "store a{actor} 10000 {page:02x}\n")?;
        script.push_str(line.as_str())?;
    }
    script.push_str("pageout 3\n")?;
    for actor in 1..257u32 {
        let line = format!(in alloc; "load a{actor} 10000 1\n")?;
        script.push_str(line.as_str())?;
    }
    script.push_str("stat\n")?;
    Ok(script)
}

// The replies to it, where the loads are answered from the last one on.
fn latest_first(alloc: Global) -> Result<String, NoMemory> {
    let mut replies = String::new(alloc);
    replies.push_str("1 ok c1\n")?;
    for actor in 1..257u32 {
        let line = 3 * actor - 1;
        let reply = format!(in alloc; "{line} ok a{actor}\n{} ok r{actor}\n", line + 1)?;
        replies.push_str(reply.as_str())?;
        let reply = format!(in alloc; "{} ok\n", line + 2)?;
        replies.push_str(reply.as_str())?;
    }
    replies.push_str("770 ok\n")?;
    for page in (0..256u32).rev() {
        let reply = format!(in alloc; "{} ok {page:02x}\n", page + 771)?;
        replies.push_str(reply.as_str())?;
    }
    replies.push_str("1027 stat live 256 working 0 copies 0\n")?;
    Ok(replies)
}

// All 256 wait, and the turns name the latest one each time.
#[test]
fn all_actors_may_wait(rt: HostRuntime) -> Result<(), Fail> {
    let mut turns = Vec::new(rt.alloc());
    for _ in 0..256 {
        turns.push(None)?;
    }
    for place in (0..256u32).rev() {
        turns.push(Some(place))?;
    }
    let replies = latest_first(rt.alloc())?;
    let script = all_actors(rt.alloc())?;
    let mut mapper = swap_area(rt.alloc(), PAGE as u32, &[])?;
    let words = ["run", "--frames", "3"];
    is_answered_so(
        &rt,
        rt.alloc(),
        &words,
        script.as_str(),
        turns.as_slice(),
        &mut Clock::new(),
        &mut mapper,
        replies.as_str(),
    )
}

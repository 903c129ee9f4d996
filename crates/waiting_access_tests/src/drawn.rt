// Drawn scripts of three actors, and drawn turns: the replies are those of the machine that copies
// at once to the lines in the order in which they were answered.
use drawn_numbers::Draws;
use plain_machine::Plain;
use played_scripts::{
    Touched, as_answered, drawn_script, number_of, said, swap_area, text, written_by,
};
use std::alloc::Global;
use std::process::Abort;
use std::test::Fail;
use vm_ids::{NoMemory, PAGE};
use vm_port::{Clock, ListedTurns, MemorySink};

// So many scripts are drawn.
const SCRIPTS: u64 = 12;

// What the machine that copies at once writes, which locks pages as three frames allow.
fn written_at_once(alloc: Global, script: &str) -> Result<MemorySink, NoMemory> {
    let mapper = swap_area(alloc, PAGE as u32, &[])?;
    Plain::new(alloc, 3, PAGE as u32, mapper).replies(alloc, script)
}

// Drawn turns, of which a third names no access.
fn drawn_turns(alloc: Global, draws: &mut Draws) -> Result<Vec<Option<u32>>, NoMemory> {
    let mut turns = Vec::new(alloc);
    for _ in 0..160 {
        let place = draws.below(4);
        turns.push(if draws.below(3) == 0 {
            None
        } else {
            Some(place)
        })?;
    }
    Ok(turns)
}

// How many replies stand behind one to a later line.
fn overtaken(replies: &str) -> u32 {
    let mut latest = 0u32;
    let mut count = 0u32;
    for reply in replies.lines() {
        let number = number_of(reply);
        if number < latest {
            count = count.saturating_add(1);
        }
        latest = latest.max(number);
    }
    count
}

// The actor of an access.
fn accessor(line: &str) -> Option<&str> {
    let (verb, rest) = line.split_once(" ")?;
    let (actor, _) = rest.split_once(" ")?;
    if verb == "load" || verb == "store" {
        Some(actor)
    } else {
        None
    }
}

// A later line is answered first only where both are accesses, of different actors. These lines
// stand in the order of their answers.
fn is_in_order(rt: &impl Abort, answered: &str, replies: &str) {
    for (place, (line, reply)) in answered.lines().zip(replies.lines()).enumerate() {
        for (behind, later) in answered.lines().zip(replies.lines()).skip(place) {
            if number_of(later) < number_of(reply) {
                assert!(rt; accessor(line).is_some() && accessor(behind).is_some());
                assert!(rt; accessor(line) != accessor(behind), "{reply}");
            }
        }
    }
}

// A drawn script by drawn turns. How many answers were overtaken.
fn follows(rt: &impl Abort, alloc: Global, seed: u64, touched: Touched) -> Result<u32, Fail> {
    let mut draws = Draws::new(seed);
    let script = drawn_script(alloc, &mut draws, touched)?;
    let turns = drawn_turns(alloc, &mut draws)?;
    let mut mapper = swap_area(alloc, PAGE as u32, &[])?;
    let sink = written_by(
        alloc,
        &["run", "--frames", "3"],
        script.as_str(),
        &mut mapper,
        &mut Clock::new(),
        &mut ListedTurns::new(turns.as_slice()),
    )?;
    let replies = text(&sink);
    let answered = as_answered(alloc, script.as_str(), replies)?;
    let at_once = written_at_once(alloc, answered.as_str())?;
    let right = text(&at_once);
    assert_eq!(rt; replies.lines().count(), script.as_str().lines().count());
    assert_eq!(rt; replies.lines().count(), right.lines().count());
    for (reply, wanted) in replies.lines().zip(right.lines()) {
        assert_eq!(rt; said(reply), said(wanted), "{seed} {reply}");
    }
    is_in_order(rt, answered.as_str(), replies);
    if touched == Touched::Own {
        in_any_order(rt, alloc, script.as_str(), replies)?;
    }
    Ok(overtaken(replies))
}

// Each reply is that of the machine that copies at once to the lines as they are.
fn in_any_order(
    rt: &impl Abort,
    alloc: Global,
    script: &str,
    replies: &str,
) -> Result<(), NoMemory> {
    let at_once = written_at_once(alloc, script)?;
    for wanted in text(&at_once).lines() {
        assert!(rt; replies.lines().any(|reply| reply == wanted), "{wanted}");
    }
    Ok(())
}

#[test]
fn drawn_turns_change_the_order_alone(rt: HostRuntime) -> Result<(), Fail> {
    for touched in [Touched::Own, Touched::All] {
        let mut count = 0u32;
        for seed in 0..SCRIPTS {
            count = count.saturating_add(follows(&rt, rt.alloc(), seed, touched)?);
        }
        assert!(&rt; count > 20, "{count}");
    }
    Ok(())
}

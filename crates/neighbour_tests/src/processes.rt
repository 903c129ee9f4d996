// Scripts of processes: worked ones, drawn ones beside the machine of processes run plainly, calls
// of the mapper that fail, and what is left of processes below.
ghost use Rattle.std.specs.Prelude.{◌≡◌, ◌*◌, ◌≤◌, ◌^◌, length, IfOk, Some};
ghost use Rattle.vm_port.specs.Mapping.{held_of};
ghost use Rattle.mix_process.specs.Calling.{made_by};
ghost use Rattle.mix_process.specs.Tying.{CanCall};

use actor_script::{read_mix, write_reply};
use drawn_numbers::Draws;
use gmi_calls::Gmi;
use mix_process::{Mix, PlainProcesses};
use played_scripts::{are_answered_beside_faults, images, text, written};
use pvm_core::Pvm;
use std::alloc::Global;
use std::process::Abort;
use std::test::Fail;
use vm_ids::{Counts, NoMemory, PAGE, Trouble};
use vm_port::{CallKind, Chooser, Clock, MemoryMapper, MemorySink};

// The first bytes of the pages of the segment.
const IMAGE: [u8; 5] = [0x7f, 0x41, 0x42, 0x43, 0x44];

// No script here has more bytes of replies.
const ROOM: usize = 65536;

// No script of which the counts below are asked has more lines.
const MOST_LINES: u32 = 1000;

const FORKED_AND_GROWN: &str = "exec 1 1 2 1
store p1 10000000 61
fork p1
store p1 10000000 62
load p2 10000000 1
load p2 10001000 1
load p1 400000 1
store p1 400000 00
grow p1 1
load p1 10002000 1
load p2 10002000 1
exit p1
load p2 10000000 1
";

const FORKED_AND_GROWN_REPLIES: &str = "1 ok p1
2 ok
3 ok p2
4 ok
5 ok 61
6 ok 42
7 ok 7f
8 no Protection
9 ok
10 ok 00
11 no BadAddress
12 ok
13 ok 61
";

const REFUSED: &str = "fork p9
exec 1 4 2 1
exec 1 1025 1 1
exec 1 1 65537 1
exec 1 1 1 1025
exec 2 1 1 1
exit p1
grow p1 1
load p1 400000 1
actor
exec 1 1 1 1
exec 1 1 4 1024
grow p1 65535
grow p1 1
load p1 1ffff000 1
load p1 20000000 1
load p1 10000fff 2
store p1 40001000 00
";

const REFUSED_REPLIES: &str = "1 no NoProcess
2 no BadImage
3 no TooLarge
4 no TooLarge
5 no TooLarge
6 no NoSegment
7 no NoProcess
8 no NoProcess
9 no NoProcess
10 no BadLine
11 ok p1
12 ok p2
13 ok
14 no TooLarge
15 ok 00
16 no BadAddress
17 no Crosses
18 no BadAddress
";

// Of an image of 1,025 pages 1,024 are text; the first, the last of these and the one behind it
// begin with these bytes.
const MUCH_TEXT: &str = "exec 1 1024 1 1
load p1 400000 1
load p1 7ff000 1
load p1 800000 1
load p1 10000000 1
exec 1 1025 1 1
exec 1 1024 2 1
";

const MUCH_TEXT_REPLIES: &str = "1 ok p1
2 ok 11
3 ok 22
4 no BadAddress
5 ok 33
6 no TooLarge
7 no BadImage
";

fn much_image(alloc: Global) -> Result<Vec<u8>, NoMemory>
    ensures { IfOk result (λ v. length v.items ≡ 1025 * PAGE) }
{
    let mut bytes = vec![in alloc; 0u8; 1025 * PAGE]?;
    bytes[0] = 0x11;
    bytes[1023 * PAGE] = 0x22;
    bytes[1024 * PAGE] = 0x33;
    Ok(bytes)
}

fn much_text(alloc: Global) -> Result<MemoryMapper, NoMemory>
    ensures { IfOk result (λ m. m.page_bytes ≡ PAGE) }
{
    let segments = [much_image(alloc)?];
    MemoryMapper::new(alloc, &segments, &[], 512, &[], PAGE as u32)
}

#[test]
fn a_text_of_1024_pages(rt: HostRuntime) -> Result<(), Fail> {
    let mut mapper = much_text(rt.alloc())?;
    let words = ["mix", "--frames", "4"];
    let sink = written(rt.alloc(), &words, MUCH_TEXT, &mut mapper)?;
    assert_eq!(&rt; text(&sink), MUCH_TEXT_REPLIES);
    Ok(())
}

#[test]
fn worked_scripts_of_processes(rt: HostRuntime) -> Result<(), Fail> {
    for (script, replies) in [
        (FORKED_AND_GROWN, FORKED_AND_GROWN_REPLIES),
        (REFUSED, REFUSED_REPLIES),
    ] {
        let mut mapper = images(rt.alloc(), &[])?;
        let words = ["mix", "--frames", "4"];
        let sink = written(rt.alloc(), &words, script, &mut mapper)?;
        assert_eq!(&rt; text(&sink), replies);
    }
    Ok(())
}

// A page that begins with this byte.
fn page(alloc: Global, first: u8) -> Result<Vec<u8>, NoMemory>
    ensures { IfOk result (λ v. length v.items ≡ PAGE) }
{
    let mut bytes = vec![in alloc; 0u8; PAGE]?;
    bytes[0] = first;
    Ok(bytes)
}

// What the machine of processes answers to a script over that segment, run plainly.
fn plainly(rt: &impl Abort, alloc: Global, script: &str) -> Result<MemorySink, NoMemory> {
    let [first, second, third, fourth, fifth] = IMAGE;
    let held = [
        page(alloc, first)?,
        page(alloc, second)?,
        page(alloc, third)?,
        page(alloc, fourth)?,
        page(alloc, fifth)?,
    ];
    let mut machine = PlainProcesses::new(alloc);
    let mut sink = MemorySink::new(alloc, ROOM, &[])?;
    let mut number = 0u32;
    for line in script.lines() {
        number = number.wrapping_add(1);
        let answer = match read_mix(line.as_bytes()) {
            Ok(command) => machine.answer(&command, Some(&held))?,
            Err(refusal) => Err(Trouble::Refused(refusal)),
        };
        let wrote = write_reply(number, &answer, &mut sink).is_ok();
        assert!(rt; wrote);
    }
    Ok(sink)
}

// A drawn address: the first byte, the second or the last of one of eight pages of an area.
fn drawn_address(draws: &mut Draws) -> u64 {
    let start = match draws.below(4) {
        0 => 0x40_0000,
        1 => 0x4000_0000,
        _ => 0x1000_0000,
    };
    let byte = match draws.below(3) {
        0 => 0,
        1 => 1,
        _ => 4095,
    };
    start + draws.below(8) as u64 * PAGE as u64 + byte
}

fn drawn_line(alloc: Global, draws: &mut Draws) -> Result<String, NoMemory> {
    let number = draws.below(8) + 1;
    let pages = draws.below(4) + 1;
    let few = draws.below(2) + 1;
    let address = drawn_address(draws);
    match draws.below(24) {
        0 => Ok(format!(in alloc; "exec 1 {few} {pages} {few}\n")?),
        1 | 2 => Ok(format!(in alloc; "fork p{number}\n")?),
        3 => Ok(format!(in alloc; "exit p{number}\n")?),
        4 => Ok(format!(in alloc; "grow p{number} {pages}\n")?),
        5 => Ok(format!(in alloc; "pageout {pages}\n")?),
        6..=13 => Ok(format!(in alloc; "load p{number} {address:x} {few}\n")?),
        _ => {
            let byte = draws.below(256);
            Ok(format!(in alloc; "store p{number} {address:x} {byte:02x}\n")?)
        }
    }
}

fn drawn_script(alloc: Global, seed: u64, lines: u32) -> Result<String, NoMemory> {
    let mut draws = Draws::new(seed);
    let mut script = format!(in alloc; "exec 1 1 3 2\n")?;
    for _ in 0..lines {
        script.push_str(drawn_line(alloc, &mut draws)?.as_str())?;
    }
    Ok(script)
}

#[test]
fn drawn_scripts_of_processes(rt: HostRuntime) -> Result<(), Fail> {
    for seed in 0..8 {
        let script = drawn_script(rt.alloc(), seed, 150)?;
        let plain = plainly(&rt, rt.alloc(), script.as_str())?;
        for frames in ["3", "8"] {
            let mut mapper = images(rt.alloc(), &[])?;
            let words = ["mix", "--frames", frames];
            let sink = written(rt.alloc(), &words, script.as_str(), &mut mapper)?;
            assert_eq!(&rt; text(&sink), text(&plain), "{seed}");
        }
    }
    Ok(())
}

#[test]
fn calls_of_the_mapper_fail_in_turn(rt: HostRuntime) -> Result<(), Fail> {
    let drawn = drawn_script(rt.alloc(), 5, 60)?;
    for kind in [
        CallKind::Size,
        CallKind::PullIn,
        CallKind::SwapIn,
        CallKind::SwapOut,
    ] {
        let words = ["mix", "--frames", "3"];
        let are = are_answered_beside_faults(rt.alloc(), &words, drawn.as_str(), kind)?;
        assert!(&rt; are, "{kind:?}");
    }
    Ok(())
}

// A process, 200 forks of drawn ones, each of which stores, and exits of all in a drawn order.
fn drawn_forks(alloc: Global, draws: &mut Draws) -> Result<String, NoMemory> {
    let mut script = format!(in alloc; "exec 1 1 3 2\n")?;
    let mut living = Vec::new(alloc);
    living.push(1u32)?;
    for child in 2..202 {
        let parent = draws.below(child - 1) + 1;
        let fork = format!(in alloc; "fork p{parent}\nstore p{child} 10001000 62\n")?;
        script.push_str(fork.as_str())?;
        living.push(child)?;
    }
    for _ in 0..201 {
        let place = draws.below(201) as usize;
        let Some(last) = living.pop() else {
            break;
        };
        let gone = match living.get_mut(place) {
            Some(other) => std::mem::replace(other, last),
            None => last,
        };
        script.push_str(format!(in alloc; "exit p{gone}\n")?.as_str())?;
    }
    Ok(script)
}

// Each line of a script is answered, and none is refused.
fn answer_lines<G: Gmi<MemoryMapper, C>, C: Chooser>(
    rt: &impl Abort,
    processes: &mut Mix<G>,
    mapper: &mut MemoryMapper,
    chooser: &mut C,
    script: &str,
)
    requires can { CanCall G.Gmi processes.old (Some (held_of mapper.old))
        (Some mapper.old.page_bytes) }
    requires made { made_by G.Gmi processes.old ≤ 2 ^ 60 }
{
    let mut lines = script.lines();
    for step in 0..MOST_LINES {
        let Some(line) = lines.next() else {
            return;
        };
        let Ok(command) = read_mix(line.as_bytes()) else {
            panic!(rt; "no command");
        };
        let answer = processes.answer(&command, mapper, chooser);
        assert!(rt; answer.is_ok(), "{step}");
    }
    panic!(rt; "more lines");
}

// What the manager below has when a script has been answered.
fn counts_below(rt: &impl Abort, alloc: Global, script: &str) -> Result<Counts, NoMemory> {
    let mut mapper = images(alloc, &[])?;
    let manager = Pvm::new(alloc, 8, PAGE as u32)?;
    let mut processes = Mix::new::<MemoryMapper, Clock>(alloc, manager);
    answer_lines(rt, &mut processes, &mut mapper, &mut Clock::new(), script);
    Ok(processes.manager().stat())
}

// Forks of forks leave the pages of the opened image, and nothing else.
#[test]
fn nothing_is_left_of_processes(rt: HostRuntime) -> Result<(), NoMemory> {
    for seed in 0..3 {
        let mut draws = Draws::new(seed);
        let script = drawn_forks(rt.alloc(), &mut draws)?;
        let counts = counts_below(&rt, rt.alloc(), script.as_str())?;
        assert_eq!(&rt; counts.live, 5, "{seed}");
        assert_eq!(&rt; counts.working, 0, "{seed}");
    }
    Ok(())
}

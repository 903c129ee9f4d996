// Scripts of message ports: worked ones, drawn ones beside plain queues that keep a byte of each
// page, and calls of the mapper that fail.
ghost use Rattle.std.specs.Prelude.{◌≤◌};

use crate::script::{Script, Turn};
use drawn_numbers::Draws;
use played_scripts::{are_answered_beside_faults, swap_area, text, written};
use std::alloc::Global;
use std::collections::VecDeque;
use std::test::Fail;
use vm_ids::{NoMemory, PAGE};
use vm_port::CallKind;

const IN_ORDER: &str = "actor
temp 2
temp 2
map a1 c1 0 2 10000 rw
map a1 c2 0 2 20000 rw
port 2
store a1 10000 01
send q1 c1 0 1
store a1 10000 02
send q1 c1 0 1
send q1 c1 0 1
store a1 10000 03
receive q1 c2 0
receive q1 c2 1
receive q1 c2 0
load a1 20000 1
load a1 21000 1
load a1 10000 1
";

const IN_ORDER_REPLIES: &str = "1 ok a1
2 ok c1
3 ok c2
4 ok r1
5 ok r2
6 ok q1
7 ok
8 ok
9 ok
10 ok
11 no PortFull
12 ok
13 ok
14 ok
15 no PortEmpty
16 ok 01
17 ok 02
18 ok 03
";

const REFUSED: &str = "actor
temp 2
temp 2
map a1 c1 0 2 10000 rw
map a1 c2 0 2 20000 rw
port 2
send q2 c1 0 1
send q1 c1 1 2
send q1 c1 0 2
receive q1 c2 1
receive q1 c2 0
port 65
copy c1 0 c2 0 1
";

const REFUSED_REPLIES: &str = "1 ok a1
2 ok c1
3 ok c2
4 ok r1
5 ok r2
6 ok q1
7 no NoPort
8 no OutOfCache
9 ok
10 no OutOfCache
11 ok
12 no BadLine
13 no BadLine
";

// A message has a number of the caches, and no line finds its cache. A send that finds nothing to
// send takes a number too.
const HIDDEN: &str = "actor
temp 1
port 1
send q1 c1 0 1
temp 1
send q1 c2 0 1
map a1 c2 0 1 10000 r
receive q1 c2 0
receive q1 c3 0
send q1 c2 0 1
temp 1
";

const HIDDEN_REPLIES: &str = "1 ok a1
2 ok c1
3 ok q1
4 ok
5 ok c3
6 no PortFull
7 no NoCache
8 no NoCache
9 ok
10 no NoCache
11 ok c5
";

#[test]
fn worked_scripts_of_ports(rt: HostRuntime) -> Result<(), Fail> {
    for (script, replies) in [
        (IN_ORDER, IN_ORDER_REPLIES),
        (REFUSED, REFUSED_REPLIES),
        (HIDDEN, HIDDEN_REPLIES),
    ] {
        let mut mapper = swap_area(rt.alloc(), PAGE as u32, &[])?;
        let words = ["ipc", "--frames", "3"];
        let sink = written(rt.alloc(), &words, script, &mut mapper)?;
        assert_eq!(&rt; text(&sink), replies);
    }
    Ok(())
}

// A port of 64 messages is filled, 1,024 ports are made, and one is filled and drained 1,000 times.
// Then so many pages are live as before.
fn limits(alloc: Global) -> Result<Script, NoMemory> {
    let mut script = Script::new(alloc);
    script.script.push_str("temp 1\nport 64\nport 1\n")?;
    script.replies.push_str("1 ok c1\n2 ok q1\n3 ok q2\n")?;
    for number in 4..68u32 {
        script.script.push_str("send q1 c1 0 1\n")?;
        script
            .replies
            .push_str(format!(in alloc; "{number} ok\n")?.as_str())?;
    }
    script.script.push_str("send q1 c1 0 1\n")?;
    script.replies.push_str("68 no PortFull\n")?;
    for port in 3..1025u32 {
        script.script.push_str("port 1\n")?;
        script
            .replies
            .push_str(format!(in alloc; "{} ok q{port}\n", port + 66)?.as_str())?;
    }
    script.script.push_str("port 1\n")?;
    script.replies.push_str("1091 no TooMany\n")?;
    for number in 1092..2092u32 {
        script.script.push_str("send q2 c1 0 1\nreceive q2 c1 0\n")?;
        let (sent, received) = (2 * number - 1092, 2 * number - 1091);
        script
            .replies
            .push_str(format!(in alloc; "{sent} ok\n{received} ok\n")?.as_str())?;
    }
    script.script.push_str("temp 4194240\ntemp 4194239\n")?;
    script.replies.push_str("3092 no TooMany\n3093 ok c1066\n")?;
    Ok(script)
}

#[test]
fn limits_of_ports(rt: HostRuntime) -> Result<(), Fail> {
    let script = limits(rt.alloc())?;
    let mut mapper = swap_area(rt.alloc(), PAGE as u32, &[])?;
    let words = ["ipc", "--frames", "3"];
    let sink = written(rt.alloc(), &words, script.script.as_str(), &mut mapper)?;
    assert_eq!(&rt; text(&sink), script.replies.as_str());
    Ok(())
}

// The pages of each cache.
const PAGES: usize = 4;

// The first bytes of the pages of two caches, and of those of the messages that wait at two ports.
#[derive(Drop)]
struct Plain {
    caches: [[u8; PAGES]; 2],
    ports: [VecDeque<Vec<u8>>; 2],
}

// Two messages may wait at a port.
const DEPTH: usize = 2;

const BEGINNING: [(&str, &str); 7] = [
    ("actor", "ok a1"),
    ("temp 4", "ok c1"),
    ("temp 4", "ok c2"),
    ("map a1 c1 0 4 10000 rw", "ok r1"),
    ("map a1 c2 0 4 20000 rw", "ok r2"),
    ("port 2", "ok q1"),
    ("port 2", "ok q2"),
];

// What a load of the first byte of a page is answered, and a store of it.
fn load(alloc: Global, plain: &Plain, cache: usize, page: usize) -> Result<String, NoMemory> {
    match plain.caches.get(cache).and_then(|bytes| bytes.get(page)) {
        Some(byte) => Ok(format!(in alloc; "ok {byte:02x}")?),
        None => Ok(format!(in alloc; "no BadAddress")?),
    }
}

fn store(plain: &mut Plain, cache: usize, page: usize, byte: u8) -> &'static str {
    let Some(bytes) = plain.caches.get_mut(cache) else {
        return "no BadAddress";
    };
    match bytes.get_mut(page) {
        Some(place) => {
            *place = byte;
            "ok"
        }
        None => "no BadAddress",
    }
}

// What a send of some pages is answered.
fn send(
    alloc: Global,
    plain: &mut Plain,
    port: usize,
    cache: usize,
    first: usize,
    pages: usize,
) -> Result<&'static str, NoMemory>
    requires near { first ≤ 16 }
    requires few { pages ≤ 16 }
{
    let Some(messages) = plain.ports.get_mut(port) else {
        return Ok("no NoPort");
    };
    if messages.len() >= DEPTH {
        return Ok("no PortFull");
    }
    let Some(bytes) = plain.caches.get(cache) else {
        return Ok("no NoCache");
    };
    let Some(sent) = bytes.get(first..first + pages) else {
        return Ok("no OutOfCache");
    };
    let mut message = Vec::new(alloc);
    message.extend_from_slice(sent)?;
    messages.push_back(message)?;
    Ok("ok")
}

// What a receive is answered.
fn receive(plain: &mut Plain, port: usize, cache: usize, first: usize) -> &'static str
    requires { first ≤ 16 }
{
    let Some(messages) = plain.ports.get_mut(port) else {
        return "no NoPort";
    };
    let Some(message) = messages.front() else {
        return "no PortEmpty";
    };
    let Some(bytes) = plain.caches.get_mut(cache) else {
        return "no NoCache";
    };
    if first + message.len() > PAGES {
        return "no OutOfCache";
    }
    bytes[first..first + message.len()].copy_from_slice(message);
    let _ = messages.pop_front();
    "ok"
}

// The next drawn line, played on plain queues. There is no third cache and no third port.
fn play(alloc: Global, draws: &mut Draws, plain: &mut Plain) -> Result<Turn, NoMemory> {
    let (cache, port) = (draws.below(5) / 2, draws.below(5) / 2);
    let (page, pages) = (draws.below(4), draws.below(3) + 1);
    let (c, q, o) = (cache as usize, port as usize, page as usize);
    let address = 0x10000 * (cache as u64 + 1) + page as u64 * PAGE as u64;
    match draws.below(8) {
        0 => Ok(Turn {
            line: format!(in alloc; "pageout {pages}")?,
            reply: format!(in alloc; "ok")?,
        }),
        1..=2 => Ok(Turn {
            line: format!(in alloc; "load a1 {address:x} 1")?,
            reply: load(alloc, plain, c, o)?,
        }),
        3..=4 => {
            let byte = draws.below(256) as u8;
            let reply = store(plain, c, o, byte);
            Ok(Turn {
                line: format!(in alloc; "store a1 {address:x} {byte:02x}")?,
                reply: format!(in alloc; "{reply}")?,
            })
        }
        5..=6 => {
            let reply = send(alloc, plain, q, c, o, pages as usize)?;
            Ok(Turn {
                line: format!(in alloc; "send q{} c{} {page} {pages}", port + 1, cache + 1)?,
                reply: format!(in alloc; "{reply}")?,
            })
        }
        _ => {
            let reply = receive(plain, q, c, o);
            Ok(Turn {
                line: format!(in alloc; "receive q{} c{} {page}", port + 1, cache + 1)?,
                reply: format!(in alloc; "{reply}")?,
            })
        }
    }
}

fn drawn_script(alloc: Global, seed: u64, lines: u32) -> Result<Script, NoMemory> {
    let mut draws = Draws::new(seed);
    let mut plain = Plain {
        caches: [[0; PAGES]; 2],
        ports: [VecDeque::new(alloc), VecDeque::new(alloc)],
    };
    let mut drawn = Script::new(alloc);
    let mut number = 0u32;
    for (line, reply) in BEGINNING {
        number = number.wrapping_add(1);
        let turn = Turn {
            line: format!(in alloc; "{line}")?,
            reply: format!(in alloc; "{reply}")?,
        };
        drawn.add(alloc, number, &turn)?;
    }
    for _ in 0..lines {
        number = number.wrapping_add(1);
        let turn = play(alloc, &mut draws, &mut plain)?;
        drawn.add(alloc, number, &turn)?;
    }
    Ok(drawn)
}

#[test]
fn drawn_scripts_of_ports(rt: HostRuntime) -> Result<(), Fail> {
    for seed in 0..8 {
        let drawn = drawn_script(rt.alloc(), seed, 150)?;
        for frames in ["3", "8"] {
            let mut mapper = swap_area(rt.alloc(), PAGE as u32, &[])?;
            let words = ["ipc", "--frames", frames];
            let sink = written(rt.alloc(), &words, drawn.script.as_str(), &mut mapper)?;
            assert_eq!(&rt; text(&sink), drawn.replies.as_str(), "{seed}");
        }
    }
    Ok(())
}

#[test]
fn calls_of_the_mapper_fail_in_turn(rt: HostRuntime) -> Result<(), Fail> {
    let drawn = drawn_script(rt.alloc(), 3, 60)?;
    for kind in [CallKind::SwapIn, CallKind::SwapOut] {
        let words = ["ipc", "--frames", "3"];
        let script = drawn.script.as_str();
        let are = are_answered_beside_faults(rt.alloc(), &words, script, kind)?;
        assert!(&rt; are, "{kind:?}");
    }
    Ok(())
}

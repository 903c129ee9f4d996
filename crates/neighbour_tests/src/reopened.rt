// Scripts of segments that are opened again and again: worked ones, drawn ones beside a plain
// machine that notes a number and a byte of each page, and calls of the mapper that fail.
ghost use Rattle.std.specs.Prelude.{◌≡◌, map, IfOk};
ghost use Rattle.replay.specs.Commanding.{page_size_of};

use crate::kept::{AGAIN, GIVEN_UP_LATER, GIVEN_UP_LATER_REPLIES, KEPT, NOT_KEPT};
use crate::script::{Script, Turn};
use drawn_numbers::Draws;
use played_scripts::{are_answered_beside_faults, said, text, two_pages, written};
use std::alloc::Global;
use std::collections::VecDeque;
use std::process::Abort;
use std::test::Fail;
use vm_ids::{NoMemory, PAGE, PageNo, SegId};
use vm_port::{CallKind, CallNo, MemoryMapper};

// Three segments of two pages, of which these are the first bytes.
const SEGMENTS: usize = 3;

const PAGES: usize = 2;

const HELD: [[u8; PAGES]; SEGMENTS] = [[0x41, 0x42], [0x51, 0x52], [0x61, 0x62]];

// A mapper over them, which fails at these calls.
fn three_segments(alloc: Global, fails: &[CallNo]) -> Result<MemoryMapper, NoMemory>
    ensures { IfOk result (λ m. m.page_bytes ≡ PAGE) }
{
    let segments = [
        two_pages(alloc, 0x41, 0x42)?,
        two_pages(alloc, 0x51, 0x52)?,
        two_pages(alloc, 0x61, 0x62)?,
    ];
    MemoryMapper::new(alloc, &segments, &[], 512, fails, PAGE as u32)
}

// For these words a script has these replies; then the first segment begins with this byte.
fn keeps(
    rt: &impl Abort,
    alloc: Global,
    words: &[&str],
    script: &str,
    replies: &str,
    fails: &[CallNo],
    first: u8,
) -> Result<(), Fail>
    requires { PAGE ≡ page_size_of (map (λ w. w.now) words.now) }
{
    let mut mapper = three_segments(alloc, fails)?;
    let sink = written(alloc, words, script, &mut mapper)?;
    assert_eq!(rt; text(&sink), replies);
    let (segment, page) = (SegId(1), PageNo(0));
    assert!(rt; mapper.has_page(segment, page));
    assert_eq!(rt; mapper.page(segment, page).first(), Some(&first));
    Ok(())
}

#[test]
fn worked_scripts_of_segments(rt: HostRuntime) -> Result<(), Fail> {
    let push = CallNo {
        kind: CallKind::PushOut,
        nth: 1,
    };
    let one = ["keep", "--limit", "1", "--frames", "4"];
    let none = ["keep", "--limit", "0", "--frames", "4"];
    keeps(&rt, rt.alloc(), &one, AGAIN, KEPT, &[], 0x41)?;
    keeps(&rt, rt.alloc(), &none, AGAIN, NOT_KEPT, &[], 0x58)?;
    keeps(
        &rt,
        rt.alloc(),
        &none,
        GIVEN_UP_LATER,
        GIVEN_UP_LATER_REPLIES,
        &[push],
        0x58,
    )
}

// A segment as the plain machine notes it: the number of its cache, where there is one, how many
// openings weren't taken back, the region at each of its two addresses, and the bytes.
#[derive(Clone, Copy)]
struct Segment {
    cache: Option<u32>,
    openings: u32,
    regions: [Option<u32>; 2],
    bytes: [u8; PAGES],
}

impl Segment {
    fn is_live(&self) -> bool {
        self.openings > 0 || self.regions[0].is_some() || self.regions[1].is_some()
    }

    // The number by which a line names the cache.
    fn number(&self) -> u32 {
        self.cache.unwrap_or(9999)
    }
}

#[derive(Drop)]
struct Plain {
    segments: [Segment; SEGMENTS],
    kept: VecDeque<usize>,
    limit: usize,
    caches: u32,
    regions: u32,
}

impl Plain {
    // The last reference to a segment may have gone.
    fn let_go(&mut self, place: usize) -> Result<(), NoMemory> {
        let Some(segment) = self.segments.get(place) else {
            return Ok(());
        };
        if !segment.is_live() {
            self.kept.push_back(place)?;
        }
        if self.kept.len() > self.limit {
            if let Some(first) = self.kept.pop_front() {
                if let Some(gone) = self.segments.get_mut(first) {
                    gone.cache = None;
                }
            }
        }
        Ok(())
    }

    fn open(&mut self, alloc: Global, place: usize) -> Result<String, NoMemory> {
        self.kept.retain(|other| *other != place);
        let next = self.caches.wrapping_add(1);
        let Some(segment) = self.segments.get_mut(place) else {
            return Ok(format!(in alloc; "no NoSegment")?);
        };
        segment.openings = segment.openings.wrapping_add(1);
        let number = segment.cache.unwrap_or(next);
        segment.cache = Some(number);
        self.caches = self.caches.max(number);
        Ok(format!(in alloc; "ok c{number}")?)
    }

    fn close(&mut self, place: usize) -> Result<&'static str, NoMemory> {
        let Some(segment) = self.segments.get_mut(place) else {
            return Ok("no NotOpen");
        };
        if segment.openings == 0 {
            return Ok("no NotOpen");
        }
        segment.openings = segment.openings.wrapping_sub(1);
        self.let_go(place)?;
        Ok("ok")
    }

    // Of the two places of a segment, one is mapped.
    fn map(&mut self, alloc: Global, place: usize, at: usize) -> Result<String, NoMemory> {
        let Some(segment) = self.segments.get_mut(place) else {
            return Ok(format!(in alloc; "no NoCache")?);
        };
        if !segment.is_live() {
            return Ok(format!(in alloc; "no NoCache")?);
        }
        match segment.regions.get_mut(at) {
            Some(region) if region.is_none() => {
                self.regions = self.regions.wrapping_add(1);
                *region = Some(self.regions);
                Ok(format!(in alloc; "ok r{}", self.regions)?)
            }
            _ => Ok(format!(in alloc; "no Overlap")?),
        }
    }

    fn unmap(&mut self, place: usize, at: usize) -> Result<&'static str, NoMemory> {
        let mapped = match self.segments.get_mut(place) {
            Some(segment) => segment.regions.get_mut(at).and_then(|region| region.take()),
            None => None,
        };
        if mapped.is_none() {
            return Ok("no NoRegion");
        }
        self.let_go(place)?;
        Ok("ok")
    }

    // The byte that an actor sees at a place of a segment.
    fn byte(&mut self, place: usize, at: usize, page: usize) -> Option<&mut u8> {
        let segment = self.segments.get_mut(place)?;
        match segment.regions.get(at) {
            Some(Some(_)) => segment.bytes.get_mut(page),
            _ => None,
        }
    }

    fn copy(&mut self, place: usize, other: usize, page: usize) -> &'static str {
        let (Some(from), Some(to)) = (self.segments.get(place), self.segments.get(other)) else {
            return "no NoCache";
        };
        if !from.is_live() || !to.is_live() {
            return "no NoCache";
        }
        let byte = from.bytes.get(page).copied();
        if let Some(to) = self.segments.get_mut(other) {
            if let (Some(byte), Some(seen)) = (byte, to.bytes.get_mut(page)) {
                *seen = byte;
            }
        }
        "ok"
    }

    fn store(&mut self, place: usize, at: usize, page: usize, byte: u8) -> &'static str {
        match self.byte(place, at, page) {
            Some(seen) => {
                *seen = byte;
                "ok"
            }
            None => "no BadAddress",
        }
    }

    fn load(
        &mut self,
        alloc: Global,
        place: usize,
        at: usize,
        page: usize,
    ) -> Result<String, NoMemory> {
        Ok(match self.byte(place, at, page) {
            Some(seen) => format!(in alloc; "ok {seen:02x}")?,
            None => format!(in alloc; "no BadAddress")?,
        })
    }

    fn number(&self, place: usize) -> u32 {
        match self.segments.get(place) {
            Some(segment) => segment.number(),
            None => 9999,
        }
    }

    fn region(&self, place: usize, at: usize) -> u32 {
        match self
            .segments
            .get(place)
            .and_then(|segment| segment.regions.get(at))
        {
            Some(Some(region)) => *region,
            _ => 9999,
        }
    }
}

fn turn(line: String, reply: String) -> Turn {
    Turn { line, reply }
}

// A line that is to be answered by these words.
fn told(alloc: Global, line: String, reply: &str) -> Result<Turn, NoMemory> {
    Ok(turn(line, format!(in alloc; "{reply}")?))
}

// The next drawn line, played on the plain machine. What is drawn depends on no answer.
fn play(alloc: Global, draws: &mut Draws, plain: &mut Plain) -> Result<Turn, NoMemory> {
    let (segment, at, page) = (draws.below(3), draws.below(2), draws.below(2));
    let (s, a, p) = (segment as usize, at as usize, page as usize);
    let byte = draws.below(256) as u8;
    let start = 0x10000 * (2 * segment as u64 + at as u64 + 1);
    let address = start + page as u64 * PAGE as u64;
    let number = plain.number(s);
    match draws.below(16) {
        0 => told(alloc, format!(in alloc; "pageout 3")?, "ok"),
        1..=2 => Ok(turn(
            format!(in alloc; "open {}", segment + 1)?,
            plain.open(alloc, s)?,
        )),
        3..=5 => {
            let reply = plain.close(s)?;
            told(alloc, format!(in alloc; "close {}", segment + 1)?, reply)
        }
        6..=7 => Ok(turn(
            format!(in alloc; "map a1 c{number} 0 2 {start:x} rw")?,
            plain.map(alloc, s, a)?,
        )),
        8 => {
            let region = plain.region(s, a);
            let reply = plain.unmap(s, a)?;
            told(alloc, format!(in alloc; "unmap r{region}")?, reply)
        }
        9..=10 => {
            let other = (s + 1) % SEGMENTS;
            let to = plain.number(other);
            let line = format!(in alloc; "copy c{number} {page} c{to} {page} 1")?;
            told(alloc, line, plain.copy(s, other, p))
        }
        11..=13 => {
            let line = format!(in alloc; "store a1 {address:x} {byte:02x}")?;
            told(alloc, line, plain.store(s, a, p, byte))
        }
        _ => Ok(turn(
            format!(in alloc; "load a1 {address:x} 1")?,
            plain.load(alloc, s, a, p)?,
        )),
    }
}

fn drawn_script(alloc: Global, seed: u64, limit: usize) -> Result<Script, NoMemory> {
    let mut draws = Draws::new(seed);
    let mut plain = Plain {
        segments: HELD.map(|bytes| Segment {
            cache: None,
            openings: 0,
            regions: [None, None],
            bytes,
        }),
        kept: VecDeque::new(alloc),
        limit,
        caches: 0,
        regions: 0,
    };
    let mut drawn = Script::new(alloc);
    let first = turn(format!(in alloc; "actor")?, format!(in alloc; "ok a1")?);
    drawn.add(alloc, 1, &first)?;
    for number in 2..150u32 {
        let next = play(alloc, &mut draws, &mut plain)?;
        drawn.add(alloc, number, &next)?;
    }
    Ok(drawn)
}

// At this limit a drawn script has the replies of the plain machine. At the greatest limit these
// differ in the numbers of caches alone.
fn drawn_at(rt: &impl Abort, alloc: Global, words: &[&str], limit: usize) -> Result<(), Fail>
    requires { PAGE ≡ page_size_of (map (λ w. w.now) words.now) }
{
    for seed in 0..6 {
        let drawn = drawn_script(alloc, seed, limit)?;
        let mut mapper = three_segments(alloc, &[])?;
        let sink = written(alloc, words, drawn.script.as_str(), &mut mapper)?;
        assert_eq!(rt; text(&sink), drawn.replies.as_str(), "{seed}");
        let most = drawn_script(alloc, seed, 1024)?;
        for (reply, other) in drawn.replies.lines().zip(most.replies.lines()) {
            assert!(rt; reply == other || said(reply).starts_with("ok c"), "{seed}");
        }
    }
    Ok(())
}

#[test]
fn drawn_scripts_of_segments(rt: HostRuntime) -> Result<(), Fail> {
    let alloc = rt.alloc();
    drawn_at(&rt, alloc, &["keep", "--limit", "0", "--frames", "3"], 0)?;
    drawn_at(&rt, alloc, &["keep", "--limit", "1", "--frames", "3"], 1)?;
    drawn_at(&rt, alloc, &["keep", "--limit", "3", "--frames", "3"], 3)?;
    drawn_at(
        &rt,
        alloc,
        &["keep", "--limit", "1024", "--frames", "3"],
        1024,
    )
}

const ONE_SEGMENT: &str = "open 1
actor
map a1 c1 0 5 10000 rw
store a1 10000 61
store a1 11000 62
temp 4
map a1 c2 0 4 20000 rw
copy c1 0 c2 0 4
store a1 12000 63
load a1 20000 1
load a1 21000 1
pageout 3
load a1 22000 1
unmap r1
close 1
open 1
map a1 c1 0 5 10000 r
load a1 10000 1
load a1 12000 1
";

#[test]
fn calls_fail_in_turn(rt: HostRuntime) -> Result<(), Fail> {
    let words = ["keep", "--limit", "8", "--frames", "3"];
    for kind in [
        CallKind::Size,
        CallKind::PullIn,
        CallKind::Access,
        CallKind::PushOut,
        CallKind::SwapIn,
        CallKind::SwapOut,
    ] {
        let are = are_answered_beside_faults(rt.alloc(), &words, ONE_SEGMENT, kind)?;
        assert!(&rt; are, "{kind:?}");
    }
    Ok(())
}

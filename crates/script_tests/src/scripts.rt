// The language by values from outside: lines that are none of its forms, and the text of each kind
// of answer.
use actor_script::{Gen, read_line, write_reply};
use std::process::Abort;
use vm_ids::{
    ActorId, Answer, CacheId, Counts, Extent, FaultAt, Mapping, NoMemory, PageNo, Prot, Refusal,
    RegionId, RegionStatus, Reply, Trouble,
};
use vm_port::MemorySink;

// A line that is none of the forms.
fn refused(rt: &impl Abort, line: &[u8]) {
    match read_line(line) {
        Ok(_) => panic!(rt; "a command"),
        Err(refusal) => assert_eq!(rt; refusal, Refusal::BadLine),
    }
}

#[test]
fn spaces_and_letters_outside_the_grammar_are_refused(rt: HostRuntime) {
    for line in [
        b" actor".as_slice(),
        b"actor ",
        b"actor  ",
        b"load  a1 10000 1",
        b"actor\t",
        b"\tactor",
        b"load\ta1 10000 1",
        b"actor\r",
        b"load a1  1",
        b"Actor",
        b"ACTOR",
        b"act\xc3\xb6r",
        b"temp \xff",
        b"#",
    ] {
        refused(&rt, line);
    }
}

#[test]
fn actors_and_caches_outside_the_grammar_are_refused(rt: HostRuntime) {
    for line in [
        b"actor 1".as_slice(),
        b"temp",
        b"temp 0",
        b"temp 01",
        b"temp +1",
        b"temp -1",
        b"temp 4294967296",
        b"temp 99999999999",
        b"copy c1 0 c2 0 0",
        b"copy c1 0 c2 0 1 1",
        b"exit",
        b"exit 1",
        b"exit r1",
        b"exit a1 a2",
        b"stat 1",
        b"chain c1",
        b"chain c1 0 1",
        b"destroy 1",
        b"move c1 0 c2 0 0",
        b"pageout 0",
    ] {
        refused(&rt, line);
    }
}

#[test]
fn segments_outside_the_grammar_are_refused(rt: HostRuntime) {
    for line in [
        b"open".as_slice(),
        b"open s1",
        b"open 01",
        b"sync c1 0",
        b"sync c1 0 0",
        b"flush 1 0 1",
        b"flush c1 0 1 1",
        b"invalidate c1 1",
    ] {
        refused(&rt, line);
    }
}

#[test]
fn regions_outside_the_grammar_are_refused(rt: HostRuntime) {
    for line in [
        b"map a1 c1 0 1 10000 w".as_slice(),
        b"map a1 c1 0 1 10000 RW",
        b"map a1 c1 0 0 10000 rw",
        b"map a1 c1 0 1 10000 rw rw",
        b"split r1",
        b"split r1 0",
        b"split r1 01",
        b"split a1 1",
        b"split r1 1 1",
        b"protect r1",
        b"protect r1 w",
        b"protect r1 RW",
        b"protect c1 r",
        b"protect r1 r w",
        b"status",
        b"status 1",
        b"status a1",
        b"status r01",
        b"status r4294967296",
        b"status r1 1",
        b"find a1",
        b"find r1 10000",
        b"find a1 1000000000000",
        b"find a1 1000g",
        b"find a1 0x1000",
        b"find a1 10000 1",
        b"unmap c1",
        b"lock",
        b"lock a1",
        b"lock r1 1",
        b"unlock 1",
        b"unlock r1 r2",
    ] {
        refused(&rt, line);
    }
}

#[test]
fn accesses_outside_the_grammar_are_refused(rt: HostRuntime) {
    for line in [
        b"load a1 10000 0".as_slice(),
        b"load a1 10000 65",
        b"load a1 10000 01",
        b"load a1 1000000000000 1",
        b"load a1 1000g 1",
        b"load 1 10000 1",
        b"load c1 10000 1",
        b"load a01 10000 1",
        b"load a1 10000",
        b"store a1 10000 0",
        b"store a1 10000 001",
        b"store a1 10000 0g",
        b"store a1 10000 0000000000000000000000000000000000000000000000000000000000000000000000000000000000000000000000000000000000000000000000000000000000",
    ] {
        refused(&rt, line);
    }
}

// A region of these pages, which is of actor 1 and shows cache 2.
fn region(address: u64, first: u32, pages: u32, write: bool, locked: bool) -> Answer {
    let extent = Extent {
        cache: CacheId(2),
        first: PageNo(first),
        pages,
    };
    let mapping = Mapping {
        extent,
        address,
        prot: Prot { write },
    };
    Ok(Reply::Status(RegionStatus {
        actor: ActorId(1),
        mapping,
        locked,
    }))
}

#[test]
fn answers_have_their_texts(rt: HostRuntime) -> Result<(), NoMemory> {
    let answers: [(Answer, &str); 17] = [
        (Ok(Reply::Done), "7 ok\n"),
        (Ok(Reply::Actor(ActorId(1))), "7 ok a1\n"),
        (Ok(Reply::Cache(CacheId(12))), "7 ok c12\n"),
        (Ok(Reply::Region(RegionId(65535))), "7 ok r65535\n"),
        (
            region(0x600000, 0, 10, true, false),
            "7 ok a1 600000 10 rw c2 0 unlocked\n",
        ),
        (region(0, 5, 1, false, true), "7 ok a1 0 1 r c2 5 locked\n"),
        (
            region(0xfedcba98700f, 4294967295, 1, true, true),
            "7 ok a1 fedcba98700f 1 rw c2 4294967295 locked\n",
        ),
        (
            region(u64::MAX, 4294967295, 4294967295, true, false),
            "7 ok a1 ffffffffffffffff 4294967295 rw c2 4294967295 unlocked\n",
        ),
        (
            Ok(Reply::Stat(Counts {
                live: 3,
                working: 2,
                copies: 1,
            })),
            "7 stat live 3 working 2 copies 1\n",
        ),
        (Err(Trouble::Refused(Refusal::NoCache)), "7 no NoCache\n"),
        (Err(Trouble::Refused(Refusal::Full)), "7 no Full\n"),
        (
            Err(Trouble::Mapper(FaultAt::Opening)),
            "7 fault mapper open\n",
        ),
        (
            Err(Trouble::Mapper(FaultAt::Access(PageNo(2)))),
            "7 fault mapper access 2\n",
        ),
        (
            Err(Trouble::Mapper(FaultAt::Save(1))),
            "7 fault mapper save 1\n",
        ),
        (
            Err(Trouble::Mapper(FaultAt::Page(PageNo(3)))),
            "7 fault mapper page 3\n",
        ),
        (
            Err(Trouble::Mapper(FaultAt::Victim)),
            "7 fault mapper victim\n",
        ),
        (Err(Trouble::Memory), "7 fault memory\n"),
    ];
    for (answer, text) in answers {
        let mut sink = MemorySink::new(rt.alloc(), 64, &[])?;
        let written = write_reply(7, &answer, &mut sink);
        assert!(&rt; written.is_ok());
        assert_eq!(&rt; sink.written(), text.as_bytes());
    }
    Ok(())
}

#[test]
fn a_number_makes_its_lines(rt: HostRuntime) {
    let mut lines = Gen::new(0);
    for _ in 0..10 {
        let _ = lines.next_line();
    }
    assert_eq!(&rt; lines.next_line().as_slice(), b"pageout 1".as_slice());
    let mut lines = Gen::new(1);
    for line in [
        "actor",
        "actor",
        "temp 64",
        "temp 64",
        "temp 64",
        "temp 64",
        "map a1 c1 0 64 100000 rw",
        "map a1 c2 0 64 200000 rw",
        "map a2 c3 0 64 100000 rw",
        "map a2 c4 0 64 200000 rw",
        "store a1 20cae6 5a",
        "store a2 136529 ba",
        "load a2 13c320 1",
        "load a1 11a61f 1",
        "store a1 22bd8d de",
        "store a1 230f24 a0",
        "store a1 11f512 1c",
        "store a2 11a2ca 6a",
        "copy c2 50 c1 40 5",
        "copy c3 41 c4 11 6",
        "load a1 13c7c2 1",
        "copy c1 17 c4 26 4",
        "load a2 12ce35 1",
        "load a2 233878 1",
        "store a2 222b1d f1",
        "copy c4 29 c3 30 10",
        "store a1 22b5b7 42",
        "store a1 2388f3 38",
        "move c3 37 c1 17 16",
        "store a1 20451b 20",
    ] {
        assert_eq!(&rt; lines.next_line().as_slice(), line.as_bytes());
    }
}

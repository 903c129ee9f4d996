// Whole runs over a mapper that never fails and gives wrong pages.
use replay::{Status, run};
use std::alloc::Global;
use std::process::Abort;
use vm_ids::NoMemory;
use vm_port::{Clock, ListedTurns, MemorySink, MemorySource, WrongMapper};
use worked_scripts::accesses;
use worked_scripts::segments::{HOSTILE, HOSTILE_REPLIES};

// What is written at four frames over a mapper whose pages are filled with 07, 08, and so on.
fn written(rt: &impl Abort, alloc: Global, script: &str) -> Result<MemorySink, NoMemory> {
    let mut source = MemorySource::new(script.as_bytes(), &[]);
    let mut sink = MemorySink::new(alloc, 4096, &[])?;
    let words = ["run", "--frames", "4"];
    let status = run(
        alloc,
        &words,
        &mut source,
        &mut sink,
        &mut WrongMapper::new(7),
        &mut Clock::new(),
        &mut ListedTurns::new(&[]),
    );
    assert_eq!(rt; status, Status::Done);
    Ok(sink)
}

// The bytes that are loaded are those that the mapper gave, and each page is asked for once.
#[test]
fn wrong_pages_are_loaded_as_they_came(rt: HostRuntime) -> Result<(), NoMemory> {
    let sink = written(&rt, rt.alloc(), accesses::WRONG_PAGES)?;
    assert_eq!(&rt; sink.written(), accesses::WRONG_PAGES_REPLIES.as_bytes());
    Ok(())
}

// Nothing fails, and chains and counts are those over the right mapper.
#[test]
fn wrong_pages_change_no_chain_and_no_count(rt: HostRuntime) -> Result<(), NoMemory> {
    let sink = written(&rt, rt.alloc(), HOSTILE)?;
    let Ok(replies) = str::from_utf8(sink.written()) else {
        panic!(&rt; "no text");
    };
    let mut compared = 0u32;
    for ((line, reply), right) in HOSTILE
        .lines()
        .zip(replies.lines())
        .zip(HOSTILE_REPLIES.lines())
    {
        assert!(&rt; !reply.contains(" fault "), "{reply}");
        if line == "stat" || line.starts_with("chain ") {
            assert_eq!(&rt; reply, right);
            compared = compared.saturating_add(1);
        }
    }
    assert_eq!(&rt; compared, 3);
    Ok(())
}

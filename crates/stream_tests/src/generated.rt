// Scripts that a number makes: their lines, and the summaries of their trials.
use played_scripts::{run_source, text};
use replay::Status;
use vm_ids::NoMemory;
use vm_port::{MemorySink, MemorySource};

const LINES: &str = "actor
actor
temp 64
temp 64
temp 64
temp 64
map a1 c1 0 64 100000 rw
map a1 c2 0 64 200000 rw
map a2 c3 0 64 100000 rw
map a2 c4 0 64 200000 rw
pageout 1
";

const SUMMARY: &str = "lines 11
ok 11
loaded 0
stat live 256 working 0 copies 0
";

// Runs these words over a source whose first read would fail.
fn run_words(words: &[&str], sink: &mut MemorySink, rt: &HostRuntime) -> Result<Status, NoMemory> {
    let mut source = MemorySource::new(b"actor\n", &[1]);
    run_source(rt.alloc(), words, &mut source, sink)
}

#[test]
fn a_number_makes_lines_and_a_summary(rt: HostRuntime) -> Result<(), NoMemory> {
    for (words, text) in [
        (["generate", "0", "11"].as_slice(), LINES),
        (&["generate", "0", "1"], "actor\n"),
        (&["trial", "0", "11", "--frames", "3"], SUMMARY),
        (&["trial", "--segments=d", "0", "--frames=3", "11"], SUMMARY),
    ] {
        let mut sink = MemorySink::new(rt.alloc(), 4096, &[])?;
        assert_eq!(&rt;
            run_words(words, &mut sink, &rt)?,
            Status::Done,
            "{words:?}"
        );
        assert_eq!(&rt; sink.written(), text.as_bytes(), "{words:?}");
    }
    Ok(())
}

// Accesses may be answered in another order, so the counts of working nodes and copies may differ.
#[test]
fn a_summary_is_nearly_the_same_at_any_number_of_frames(rt: HostRuntime) -> Result<(), NoMemory> {
    let mut few = MemorySink::new(rt.alloc(), 4096, &[])?;
    let mut many = MemorySink::new(rt.alloc(), 4096, &[])?;
    let at_few = run_words(&["trial", "1", "20000", "--frames", "3"], &mut few, &rt)?;
    let at_many = run_words(&["trial", "1", "20000", "--frames", "300"], &mut many, &rt)?;
    assert_eq!(&rt; (at_few, at_many), (Status::Done, Status::Done));
    let few = text(&few).split_once(" working");
    let many = text(&many).split_once(" working");
    let (Some((few, _)), Some((many, _))) = (few, many) else {
        panic!(&rt; "no counts");
    };
    assert_eq!(&rt; few, many);
    assert!(&rt; few.starts_with("lines 20000\nok 20000\nloaded "));
    assert!(&rt; few.ends_with("\nstat live 256"));
    Ok(())
}

// A sink has room for 11 bytes, or fails at once.
#[test]
fn a_failed_write_leaves_a_front(rt: HostRuntime) -> Result<(), NoMemory> {
    for (words, front) in [
        (["generate", "0", "11"].as_slice(), "actor\nactor"),
        (&["trial", "0", "11", "--frames", "3"], "lines 11\nok"),
    ] {
        let mut short = MemorySink::new(rt.alloc(), 11, &[])?;
        let mut failing = MemorySink::new(rt.alloc(), 4096, &[1])?;
        assert_eq!(&rt; run_words(words, &mut short, &rt)?, Status::SinkFault);
        assert_eq!(&rt; run_words(words, &mut failing, &rt)?, Status::SinkFault);
        assert_eq!(&rt; short.written(), front.as_bytes());
        assert_eq!(&rt; failing.written(), b"".as_slice());
    }
    Ok(())
}

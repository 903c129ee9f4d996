// Command lines: what they ask for, and those that ask for nothing.
use played_scripts::run_source;
use replay::{Status, folder, page_size};
use std::alloc::Global;
use std::process::Abort;
use vm_ids::NoMemory;
use vm_port::{MemorySink, MemorySource};
use worked_scripts::accesses;

// How the program ends for these words, whose source and whose sink fail at once where they are
// used.
fn ends(alloc: Global, words: &[&str]) -> Result<Status, NoMemory> {
    let mut source = MemorySource::new(b"actor\n", &[1]);
    let mut sink = MemorySink::new(alloc, 16, &[1])?;
    run_source(alloc, words, &mut source, &mut sink)
}

#[test]
fn options_stand_in_any_order_and_in_two_spellings(rt: HostRuntime) -> Result<(), NoMemory> {
    for (words, page_bytes, segments) in [
        (["run", "--frames", "8"].as_slice(), 4096, "."),
        (&["run", "--frames=65536"], 4096, "."),
        (&["run", "--frames", "3", "--page", "512"], 512, "."),
        (&["run", "--page=1024", "--frames=3"], 1024, "."),
        (&["run", "--segments=a=b", "--frames", "3"], 4096, "a=b"),
        (
            &["run", "--frames", "4", "--page", "65536", "--segments", "d"],
            65536,
            "d",
        ),
        (
            &["run", "--frames=8", "--segments", "d", "--page=32768"],
            32768,
            "d",
        ),
        (
            &["run", "--page", "16384", "--frames", "3", "--segments=d"],
            16384,
            "d",
        ),
        (
            &["run", "--page", "8192", "--segments", "d=", "--frames=3"],
            8192,
            "d=",
        ),
        (
            &["run", "--segments", "d/e", "--frames=3", "--page=4096"],
            4096,
            "d/e",
        ),
        (
            &["run", "--segments=d", "--page=2048", "--frames", "3"],
            2048,
            "d",
        ),
    ] {
        let status = ends(rt.alloc(), words)?;
        assert_eq!(&rt; status, Status::SourceFault, "{words:?}");
        assert_eq!(&rt; (page_size(words), folder(words)), (page_bytes, segments));
    }
    Ok(())
}

// The longest script that a number makes can't be written to a sink that fails at once.
#[test]
fn the_script_of_a_trial_stands_anywhere(rt: HostRuntime) -> Result<(), NoMemory> {
    for words in [
        ["generate", "4294967295", "1000000"].as_slice(),
        &["trial", "4294967295", "12", "--frames", "8"],
        &["trial", "--frames", "8", "4294967295", "12"],
        &["trial", "4294967295", "--frames=8", "12"],
        &[
            "trial",
            "--segments",
            "d",
            "4294967295",
            "--frames",
            "8",
            "12",
        ],
        &["trial", "4294967295", "--segments=d=e", "12", "--frames=8"],
    ] {
        let status = ends(rt.alloc(), words)?;
        assert_eq!(&rt; status, Status::SinkFault, "{words:?}");
    }
    Ok(())
}

fn asks_for_nothing(rt: &impl Abort, alloc: Global, words: &[&str]) -> Result<(), NoMemory> {
    let status = ends(alloc, words)?;
    assert_eq!(rt; status, Status::Usage, "{words:?}");
    Ok(())
}

#[test]
fn other_commands_ask_for_nothing(rt: HostRuntime) -> Result<(), NoMemory> {
    for words in [
        [].as_slice(),
        &["run"],
        &["Run", "--frames", "3"],
        &["--frames", "3", "run"],
        &["--frames", "3"],
        &["run", "run", "--frames", "3"],
    ] {
        asks_for_nothing(&rt, rt.alloc(), words)?;
    }
    Ok(())
}

#[test]
fn other_numbers_of_page_frames_ask_for_nothing(rt: HostRuntime) -> Result<(), NoMemory> {
    for words in [
        ["run", "--frames"].as_slice(),
        &["run", "--frames="],
        &["run", "--frames", ""],
        &["run", "--frames", "2"],
        &["run", "--frames", "65537"],
        &["run", "--frames", "4294967299"],
        &["run", "--frames", "03"],
        &["run", "--frames", "+3"],
        &["run", "--frames", "-3"],
        &["run", "--frames", "3 "],
        &["run", "--frames", "3", "3"],
        &["run", "3", "--frames", "3"],
        &["run", "--page", "512"],
    ] {
        asks_for_nothing(&rt, rt.alloc(), words)?;
    }
    Ok(())
}

#[test]
fn other_sizes_of_a_page_ask_for_nothing(rt: HostRuntime) -> Result<(), NoMemory> {
    for words in [
        ["run", "--frames", "8", "--page"].as_slice(),
        &["run", "--frames", "8", "--page", ""],
        &["run", "--frames", "8", "--page", "1000"],
        &["run", "--frames", "8", "--page=256"],
        &["run", "--frames", "3", "--page", "131072"],
        &["run", "--frames", "8", "--page", "0512"],
        // with the number of page frames
        &["run", "--frames", "4097", "--page", "65536"],
        &["run", "--frames=65536", "--page=8192"],
    ] {
        asks_for_nothing(&rt, rt.alloc(), words)?;
    }
    Ok(())
}

#[test]
fn other_folders_ask_for_nothing(rt: HostRuntime) -> Result<(), NoMemory> {
    for words in [
        ["run", "--frames", "3", "--segments"].as_slice(),
        &["run", "--frames", "3", "--segments="],
        &["run", "--frames", "3", "--segments", ""],
        &["run", "--frames", "3", "--segments", "-x"],
        &["run", "--frames", "3", "--segments=-x"],
        &["run", "--frames", "3", "--segments", "-"],
        &["run", "--frames", "3", "--segments", "--page"],
        &["run", "--frames", "2", "--segments", "d"],
        &["run", "--frames", "3", "--segments", "d", "d"],
    ] {
        asks_for_nothing(&rt, rt.alloc(), words)?;
    }
    Ok(())
}

#[test]
fn other_options_ask_for_nothing(rt: HostRuntime) -> Result<(), NoMemory> {
    for words in [
        // an option twice
        ["run", "--frames", "3", "--frames", "3"].as_slice(),
        &["run", "--frames=3", "--page=512", "--page", "512"],
        &["run", "--segments=d", "--frames=3", "--segments=d"],
        // other options
        &["run", "--frame", "3"],
        &["run", "--fr=3"],
        &["run", "--frames", "3", "--seg", "d"],
        &["run", "--frames", "3", "--pages", "512"],
        &["run", "-frames", "3"],
        &["run", "-f", "3"],
        &["run", "--Frames", "3"],
        &["run", "--frames", "3", "--help"],
        &["run", "--frames", "3", "-h"],
        &["run", "--frames", "3", "--version"],
        &["run", "--frames", "3", "-V"],
        &["run", "--help"],
        &["run", "help"],
        &["help"],
        // the end of the options
        &["run", "--frames", "3", "--"],
        &["run", "--", "--frames", "3"],
        &["run", "--frames", "--", "3"],
        &["run", "--frames", "3", "--segments", "--"],
    ] {
        asks_for_nothing(&rt, rt.alloc(), words)?;
    }
    Ok(())
}

#[test]
fn other_scripts_of_a_number_ask_for_nothing(rt: HostRuntime) -> Result<(), NoMemory> {
    for words in [
        ["generate"].as_slice(),
        &["generate", "0"],
        &["generate", "0", "0"],
        &["generate", "00", "1"],
        &["generate", "0", "01"],
        &["generate", "-1", "1"],
        &["generate", "4294967296", "1"],
        &["generate", "0", "1000001"],
        &["generate", "0", "1", "1"],
        &["generate", "0", "1", "--frames", "3"],
        &["generate", "--", "0", "1"],
    ] {
        asks_for_nothing(&rt, rt.alloc(), words)?;
    }
    Ok(())
}

#[test]
fn other_trials_ask_for_nothing(rt: HostRuntime) -> Result<(), NoMemory> {
    for words in [
        ["trial"].as_slice(),
        &["trial", "0", "1"],
        &["trial", "0", "--frames", "3"],
        &["trial", "0", "1", "1", "--frames", "3"],
        &["trial", "0", "0", "--frames", "3"],
        &["trial", "-1", "1", "--frames", "3"],
        &["trial", "0", "1", "--frames", "2"],
        &["trial", "0", "1", "--frames", "3", "--page", "4096"],
        &["trial", "--page=4096", "0", "1", "--frames", "3"],
        &["trial", "0", "1", "--frames", "3", "--frames", "3"],
        &["trial", "0", "1", "--frames"],
        &["trial", "--frames", "0", "1"],
        &["trial", "0", "1", "--frames", "3", "--segments", "-x"],
        &["trial", "0", "1", "--frame", "3"],
        &["trial", "0", "1", "--frames", "3", "--"],
        &["trial", "--", "0", "1", "--frames", "3"],
        &["trial", "0", "1", "--frames", "3", "--help"],
        &["trials", "0", "1", "--frames", "3"],
    ] {
        asks_for_nothing(&rt, rt.alloc(), words)?;
    }
    Ok(())
}

#[test]
fn other_words_read_and_write_nothing(rt: HostRuntime) -> Result<(), NoMemory> {
    let mut source = MemorySource::new(accesses::ZEROS.as_bytes(), &[]);
    let mut sink = MemorySink::new(rt.alloc(), 4096, &[])?;
    for words in [
        [].as_slice(),
        &["run", "--frames", "2"],
        &["run", "--frames", "8", "--page", "1000"],
        &["run", "--frames", "4097", "--page", "65536"],
    ] {
        let status = run_source(rt.alloc(), words, &mut source, &mut sink)?;
        assert_eq!(&rt; status, Status::Usage, "{words:?}");
    }
    assert_eq!(&rt; sink.written(), b"".as_slice());
    let words = ["run", "--segments", "d", "--frames=3"];
    let status = run_source(rt.alloc(), &words, &mut source, &mut sink)?;
    assert_eq!(&rt; status, Status::Done);
    assert_eq!(&rt; sink.written(), accesses::ZEROS_REPLIES.as_bytes());
    Ok(())
}

#[test]
fn the_first_value_counts_whatever_the_words(rt: HostRuntime) {
    for (words, page_bytes, segments) in [
        ([].as_slice(), 4096, "."),
        (&["run", "--segments"], 4096, "."),
        (&["--segments", "--page=512"], 512, "--page=512"),
        (&["--page", "1000", "--page=512"], 4096, "."),
        (&["--page=512", "--page", "1024", "--segments="], 512, ""),
        (&["--page", "--segments=d", "--segments", "e"], 4096, "d"),
    ] {
        assert_eq!(&rt;
            (page_size(words), folder(words)),
            (page_bytes, segments),
            "{words:?}"
        );
    }
}

// All page frames have 268,435,456 bytes.
#[test]
fn page_frames_may_have_256_megabytes(rt: HostRuntime) -> Result<(), NoMemory> {
    let mut source = MemorySource::new(b"", &[]);
    let mut sink = MemorySink::new(rt.alloc(), 4096, &[])?;
    let words = ["run", "--frames", "4096", "--page", "65536"];
    let status = run_source(rt.alloc(), &words, &mut source, &mut sink)?;
    assert_eq!(&rt; status, Status::Done);
    assert_eq!(&rt; sink.written(), b"".as_slice());
    Ok(())
}

#[test]
fn a_page_may_have_512_bytes(rt: HostRuntime) -> Result<(), NoMemory> {
    let mut source = MemorySource::new(accesses::PAGE_OF_512_BYTES.as_bytes(), &[]);
    let mut sink = MemorySink::new(rt.alloc(), 4096, &[])?;
    let words = ["run", "--frames", "3", "--page", "512"];
    let status = run_source(rt.alloc(), &words, &mut source, &mut sink)?;
    assert_eq!(&rt; status, Status::Done);
    assert_eq!(&rt;
        sink.written(),
        accesses::PAGE_OF_512_BYTES_REPLIES.as_bytes()
    );
    Ok(())
}

// Lines that no command has: each is refused, and the line behind it is read.
use played_scripts::run_cut;
use replay::Status;
use vm_ids::NoMemory;
use vm_port::MemorySink;

// Each stands where the like of it would be right.
#[test]
fn bad_lines_are_refused_and_passed_over(rt: HostRuntime) -> Result<(), NoMemory> {
    for line in [
        b"load  a1 10000 1".as_slice(),
        b" actor",
        b"actor ",
        b"load\ta1 10000 1",
        b"actor\r",
        b"temp 0",
        b"temp 01",
        b"temp 4294967296",
        b"load a1 10000 0",
        b"load a1 1000000000000 1",
        b"store a1 10000 0",
        b"store a1 10000 xy",
        b"store a1 10000 0000000000000000000000000000000000000000000000000000000000000000000000000000000000000000000000000000000000000000000000000000000000",
        b"map a1 c1 0 1 10000 w",
        b"acto\xf2",
        b"actor\x80",
        b"Stat",
    ] {
        let mut script = Vec::new(rt.alloc());
        script.extend_from_slice(b"actor\ntemp 1\nmap a1 c1 0 1 10000 rw\n")?;
        script.extend_from_slice(line)?;
        script.extend_from_slice(b"\nload a1 10000 1\n")?;
        let mut sink = MemorySink::new(rt.alloc(), 4096, &[])?;
        let status = run_cut(rt.alloc(), "3", &script, 7, &mut sink)?;
        assert_eq!(&rt; status, Status::Done);
        let replies = "1 ok a1\n2 ok c1\n3 ok r1\n4 no BadLine\n5 ok 00\n";
        assert_eq!(&rt; sink.written(), replies.as_bytes(), "{line:?}");
    }
    Ok(())
}

// At the end of the script, and before another line.
#[test]
fn a_long_line_is_one_bad_line(rt: HostRuntime) -> Result<(), NoMemory> {
    for length in [255, 256, 257, 258, 513, 5000] {
        for most in [1, 7, 4096] {
            let mut script = vec![in rt.alloc(); b'x'; length]?;
            let mut sink = MemorySink::new(rt.alloc(), 4096, &[])?;
            let status = run_cut(rt.alloc(), "3", &script, most, &mut sink)?;
            assert_eq!(&rt; status, Status::Done);
            assert_eq!(&rt; sink.written(), b"1 no BadLine\n".as_slice());
            script.extend_from_slice(b"\nactor")?;
            let mut sink = MemorySink::new(rt.alloc(), 4096, &[])?;
            let status = run_cut(rt.alloc(), "3", &script, most, &mut sink)?;
            assert_eq!(&rt; status, Status::Done);
            assert_eq!(&rt; sink.written(), b"1 no BadLine\n2 ok a1\n".as_slice());
        }
    }
    Ok(())
}

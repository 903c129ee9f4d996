// The adapters over streams.
ghost use Rattle.std.specs.Prelude.{◌≤◌, IfOk};

use host_adapters::{StreamSink, StreamSource};
use std::io;
use std::io::{ErrorKind, Read, Write};
use vm_port::{Failed, Sink, Source};

// A reader that fails.
#[derive(Drop)]
struct Broken;

impl Read for Broken {
    fn read(&mut self, _into: &mut [u8]) -> io::Result<usize> {
        Err(io::Error::from(ErrorKind::Other))
    }
}

// A stream that is broken off, then would have to wait, and then has done all.
#[derive(Drop)]
struct Slow {
    calls: u32,
}

impl Slow {
    fn all(&mut self, count: usize) -> io::Result<usize>
        ensures { IfOk result (λ n. n ≤ count) }
    {
        self.calls = self.calls.saturating_add(1);
        match self.calls {
            1 => Err(io::Error::from(ErrorKind::Interrupted)),
            2 => Err(io::Error::from(ErrorKind::WouldBlock)),
            _ => Ok(count),
        }
    }
}

impl Read for Slow {
    fn read(&mut self, into: &mut [u8]) -> io::Result<usize> {
        self.all(into.len())
    }
}

impl Write for Slow {
    fn write(&mut self, from: &[u8]) -> io::Result<usize> {
        self.all(from.len())
    }

    fn flush(&mut self) -> io::Result<()> {
        Ok(())
    }
}

#[test]
fn streams_are_sources_and_sinks(rt: HostRuntime) -> io::Result<()> {
    let mut source = StreamSource::new(b"actor\n".as_slice(), &rt);
    let mut into = [0u8; 8];
    assert_eq!(&rt; source.read(&mut into), Ok(6));
    assert_eq!(&rt; into[..6], *b"actor\n".as_slice());
    assert_eq!(&rt; source.read(&mut into), Ok(0));
    let mut broken = StreamSource::new(Broken, &rt);
    assert_eq!(&rt; broken.read(&mut into), Err(Failed));
    let mut slow = StreamSource::new(Slow { calls: 0 }, &rt);
    assert_eq!(&rt; slow.read(&mut into), Ok(8));
    let mut room = [0u8; 4];
    let mut full = StreamSink::new(room.as_mut_slice(), &rt);
    assert_eq!(&rt; full.write(b"hello"), Ok(4));
    assert_eq!(&rt; full.write(b"o"), Err(Failed));
    let mut slow = StreamSink::new(Slow { calls: 0 }, &rt);
    assert_eq!(&rt; slow.write(b"hello"), Ok(5));
    Ok(())
}

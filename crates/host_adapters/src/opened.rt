// The opened files of segments, and how files are opened.
ghost use Rattle.std.specs.Io.{ReadsAtMost};

use std::fs::{File, Metadata, OpenOptions, TryLockError};
use std::io::{Error, ErrorKind};
use std::os::fd::AsRawFd;
use std::os::unix::fs::{FileExt, MetadataExt};
use std::{fs, io};

// The numbers of the errors where as many files are open as may be, in the whole system or in the
// program: C's ENFILE and EMFILE.
const SYSTEM_IS_FULL: i32 = 23;

const PROGRAM_IS_FULL: i32 = 24;

/// What a file is opened for.
#[derive(Clone, Copy)]
pub struct Uses {
    pub reads: bool,
    pub writes: bool,
}

/// For reading and writing.
pub const BOTH: Uses = Uses {
    reads: true,
    writes: true,
};

/// For reading alone.
pub const READING: Uses = Uses {
    reads: true,
    writes: false,
};

/// For writing alone.
pub const WRITING: Uses = Uses {
    reads: false,
    writes: true,
};

/// Which file it is, whatever its names are.
#[derive(Clone, Copy, PartialEq)]
pub struct FileId {
    device: u64,
    node: u64,
}

impl FileId {
    /// The file that this was found of.
    pub fn of(found: &Metadata) -> FileId {
        FileId {
            device: found.dev(),
            node: found.ino(),
        }
    }
}

/// A file at a moment. Whoever writes the file changes it.
#[derive(Clone, Copy, PartialEq)]
pub struct Version {
    length: u64,
    seconds: i64,
    nanoseconds: i64,
}

impl Version {
    /// The file at the moment when this was found of it.
    pub fn of(found: &Metadata) -> Version {
        Version {
            length: found.len(),
            seconds: found.ctime(),
            nanoseconds: found.ctime_nsec(),
        }
    }
}

/// An opened regular file. As long as it is open it is locked: against runs that write it, and once
/// it was owned against all others.
#[derive(Drop)]
pub struct Opened {
    file: File,
    uses: Uses,
    owned: bool,
}

impl Opened {
    /// Opens the regular file at this path for the first of these uses that isn't denied. It isn't
    /// locked yet.
    pub fn first(rt: &HostRuntime, path: &str, uses: &[Uses]) -> io::Result<Opened> {
        for uses in uses {
            match open_regular(rt, path, *uses) {
                Ok(file) => {
                    return Ok(Opened {
                        file,
                        uses: *uses,
                        owned: false,
                    });
                }
                Err(e) if is_denied(&e) => {}
                Err(e) => return Err(e),
            }
        }
        Err(Error::from(ErrorKind::PermissionDenied))
    }

    /// What the system knows of it.
    pub fn metadata(&self) -> io::Result<Metadata> {
        self.file.metadata()
    }

    /// Which version of the file is there now.
    pub fn version(&self) -> io::Result<Version> {
        Ok(Version::of(&self.metadata()?))
    }

    /// Whether nobody wrote the file since.
    pub fn is_still(&self, version: Version) -> bool {
        match self.version() {
            Ok(now) => now == version,
            Err(_) => false,
        }
    }

    /// Whether it is open for this.
    pub fn serves(&self, uses: Uses) -> bool {
        (self.uses.reads || !uses.reads) && (self.uses.writes || !uses.writes)
    }

    /// Locks it against runs that write it. Fails where another run owns it.
    pub fn share(&self) -> io::Result<()> {
        locked(self.file.try_lock_shared())
    }

    /// Whether it is locked against all other runs.
    pub fn is_owned(&self) -> bool {
        self.owned
    }

    /// Locks it against all other runs. The lock that it had is let go for a moment, in which
    /// another run may write the file. Fails where one has it open; then it isn't locked any more.
    pub fn own(&mut self) -> io::Result<()> {
        locked(self.file.try_lock())?;
        self.owned = true;
        Ok(())
    }

    /// Puts bytes from this place on in front of `into`, and answers how many: none at the end.
    pub fn read_at(&self, into: &mut [u8], at: u64) -> io::Result<usize>
        ensures { ReadsAtMost result into.new }
    {
        self.file.read_at(into, at)
    }

    /// Writes all of these bytes at this place, by one call where the system takes them at once.
    pub fn write_all_at(&self, from: &[u8], at: u64) -> io::Result<()> {
        self.file.write_all_at(from, at)
    }
}

/// Whether the system refuses the use of the file, by its mode or since all files there are for
/// reading alone.
pub fn is_denied(error: &Error) -> bool {
    let kind = error.kind();
    kind == ErrorKind::PermissionDenied || kind == ErrorKind::ReadOnlyFilesystem
}

/// Whether the program, or the whole system, has as many files open as it may.
pub fn is_many(error: &Error) -> bool {
    let code = error.raw_os_error();
    code == Some(SYSTEM_IS_FULL) || code == Some(PROGRAM_IS_FULL)
}

/// Opens a file, and never under the number of a standard stream, which is free where that stream
/// was closed.
pub fn open_above(rt: &HostRuntime, path: &str, how: &OpenOptions) -> io::Result<File> {
    let file = how.open(rt, path)?;
    if file.as_raw_fd() > 2 {
        Ok(file)
    } else {
        // The copy has a number above 2, and this one goes.
        file.try_clone()
    }
}

// Opens what is a regular file and nothing else. It is looked at before, since opening something
// else may wait or do something; and again once it is open, since another file may have come to its
// place.
fn open_regular(rt: &HostRuntime, path: &str, uses: Uses) -> io::Result<File> {
    regular(&fs::metadata(rt, path)?)?;
    let mut how = OpenOptions::new();
    how.read(uses.reads).write(uses.writes);
    let file = open_above(rt, path, &how)?;
    regular(&file.metadata()?)?;
    Ok(file)
}

fn regular(found: &Metadata) -> io::Result<()> {
    if found.is_file() {
        Ok(())
    } else {
        Err(Error::new(ErrorKind::InvalidInput, "no regular file"))
    }
}

// Where files can't be locked it goes on without.
fn locked(done: Result<(), TryLockError>) -> io::Result<()> {
    match done {
        Ok(()) => Ok(()),
        Err(TryLockError::WouldBlock) => Err(Error::new(
            ErrorKind::ResourceBusy,
            "in use by another run or as another segment",
        )),
        Err(TryLockError::Error(e)) if e.kind() == ErrorKind::Unsupported => Ok(()),
        Err(TryLockError::Error(e)) => Err(e),
    }
}

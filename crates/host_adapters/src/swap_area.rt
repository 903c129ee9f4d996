// The file of the swap area.
use crate::opened::open_above;
use std::fs::{File, OpenOptions};
use std::os::unix::fs::{FileExt, OpenOptionsExt};
use std::{fs, io};

/// The file of the swap area, which no other run finds: it has no name. It goes when it is closed,
/// however the program ends.
#[derive(Drop)]
pub struct SwapArea {
    file: File,
}

impl SwapArea {
    /// Makes the file at this path, where nothing stands, for its owner alone.
    pub fn new(rt: &HostRuntime, path: &str) -> io::Result<SwapArea> {
        let mut how = OpenOptions::new();
        how.read(true).write(true).create_new(true).mode(0o600);
        let file = open_above(rt, path, &how)?;
        Ok(SwapArea { file })
    }

    /// Reads bytes that were written at this place. Fails where the file doesn't reach so far any
    /// more.
    pub fn read(&self, at: u64, into: &mut [u8]) -> io::Result<()> {
        self.file.read_exact_at(into, at)
    }

    /// Writes these bytes at this place.
    pub fn write(&self, at: u64, from: &[u8]) -> io::Result<()> {
        self.file.write_all_at(from, at)
    }
}

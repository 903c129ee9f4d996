// How far a script was read.
ghost use Rattle.std.specs.Prelude.{◌≡◌, ◌<◌, ◌+◌, ◌^◌, [], ◌∷◌, ◌++◌};
ghost use Rattle.line_service.specs.Script.{front_of_line};

use arrayvec::ArrayVec;

// Enough of a line to tell that it is too long.
const LINE_FRONT: usize = 257;

/// The line that is being read: its number, counted from 1, and the front of it that has come.
#[derive(Drop)]
pub struct Progress {
    pub number: u32,
    pub line: ArrayVec<u8, LINE_FRONT>,
}

impl Progress {
    /// Before the first byte.
    pub fn new() -> Progress
        ensures number { result.number ≡ 1 }
        ensures line { result.line.items ≡ [] }
    {
        Progress {
            number: 1,
            line: ArrayVec::new(),
        }
    }

    /// More bytes of the line.
    pub fn extend(&mut self, bytes: &[u8])
        ensures number { self.new.number ≡ self.old.number }
        ensures line { self.new.line.items ≡ front_of_line (self.old.line.items ++ bytes.now) }
    {
        let count = self.line.remaining_capacity().min(bytes.len());
        let _ = self.line.try_extend_from_slice(&bytes[..count]);
    }

    /// Before the first byte of the next line.
    pub fn next_line(&mut self)
        requires { self.old.number < 2 ^ 31 }
        ensures number { self.new.number ≡ self.old.number + 1 }
        ensures line { self.new.line.items ≡ [] }
    {
        self.number += 1;
        self.line.clear();
    }
}

// A list of marks, and how many of them are set.
ghost use Rattle.std.specs.Prelude.{◌≡◌, ◌<◌, false, length, replicate, slice_set, IfOk};
ghost use Rattle.frame_pool.specs.Marks.{set_count};

use std::alloc::Global;
use std::marker::Model;
use std::mem;
use vm_ids::NoMemory;

/// A mark for each frame. It is seen as the list of them.
#[derive(Drop)]
pub(crate) struct Marks {
    marks: Vec<bool>,
    set: usize,
}

impl Model for Marks {
    ghost use Rattle.std.specs.Prelude.{◌≡◌, Bool, List};
    ghost use Rattle.frame_pool.specs.Marks.{set_count};

    ghost Value = { List Bool };

    ghost view = { λ m. m.marks.items };

    ghost invariant = { λ m. m.set ≡ set_count m.marks.items };
}

impl Marks {
    /// So many marks, of which none is set.
    pub(crate) fn new(alloc: Global, count: usize) -> Result<Marks, NoMemory>
        ensures { IfOk result (λ m. m ≡ replicate count false) }
    {
        Ok(Marks {
            marks: vec![in alloc; false; count]?,
            set: 0,
        })
    }

    pub(crate) fn as_slice(&self) -> &[bool]
        ensures { result.now ≡ self.now }
    {
        self.marks.as_slice()
    }

    /// How many marks are set.
    pub(crate) fn count(&self) -> usize
        ensures { result ≡ set_count self.now }
    {
        self.set
    }

    /// Sets a mark, or clears it.
    pub(crate) fn put(&mut self, at: usize, mark: bool)
        requires { at < length self.old }
        ensures { self.new ≡ slice_set self.old at mark }
    {
        let before = mem::replace(&mut self.marks[at], mark);
        self.set = self.set + usize::from(mark) - usize::from(before);
    }
}

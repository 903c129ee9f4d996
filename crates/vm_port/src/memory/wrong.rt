// A mapper that gives wrong pages.
ghost use Rattle.std.specs.Prelude.{◌≡◌, ℕ, [], length, replicate, Some, None, Ok, true, is_ok};
ghost use Rattle.vm_ids.specs.Counting.{Counted, no_counts};
ghost use Rattle.vm_port.specs.Lying.{LyingInMemory, pulled, pushed, wrong_page};

use crate::{Failed, Mapper};
use std::marker::Model;
use vm_ids::{PageNo, SegId, SlotId};

/// A mapper that never fails and gives wrong pages: each byte of a page that it is asked for is the
/// low byte of a number that rises by 1 with each pull, and what is pushed to it is lost. Every
/// segment has 2 pages, and none is denied. It tells which page it gave last, and not what it
/// holds.
#[derive(Drop)]
pub struct WrongMapper {
    next: u32,
    byte: u8,
    length: usize,
    pulls: u64,
    pushes: u64,
}

impl Model for WrongMapper {
    ghost Value = { LyingInMemory };

    ghost view = { λ m. record {
      next = m.next;
      given = replicate m.length m.byte;
      counts = record { faults = 0; pulls = m.pulls; pushes = m.pushes };
    } };
}

impl WrongMapper {
    /// The first page that it gives has the low byte of `number` in each place.
    pub fn new(number: u32) -> WrongMapper
        ensures { result ≡ record { next = number; given = []; counts = no_counts } }
    {
        WrongMapper {
            next: number,
            byte: 0,
            length: 0,
            pulls: 0,
            pushes: 0,
        }
    }

    // Fills a page with the low byte of the next number.
    fn give(&mut self, into: &mut [u8]) -> Result<(), Failed>
        ensures given { into.new ≡ wrong_page self.old.next (length into.old) }
        ensures ok { is_ok result ≡ true }
        ensures counts { Counted 1 0 self.old.counts self.new.counts result }
        ensures after { self.new ≡ pulled (length into.old) self.old }
    {
        self.byte = (self.next % 256) as u8;
        self.length = into.len();
        self.next = self.next.wrapping_add(1);
        self.pulls = self.pulls.saturating_add(1);
        into.fill(self.byte);
        Ok(())
    }

    // Counts a push.
    fn lose(&mut self) -> Result<(), Failed>
        ensures ok { is_ok result ≡ true }
        ensures counts { Counted 0 1 self.old.counts self.new.counts result }
        ensures after { self.new ≡ pushed self.old }
    {
        self.pushes = self.pushes.saturating_add(1);
        Ok(())
    }
}

impl Mapper for WrongMapper {
    ghost held = { λ _. None };

    ghost given = { λ m. Some m.given };

    ghost counts = { λ m. m.counts };

    ghost page_bytes = { λ _. None };

    fn size(&mut self, _seg: SegId) -> Result<Option<u32>, Failed>
        ensures size { result ≡ Ok (Some 2) }
        ensures after { self.new ≡ self.old }
    {
        Ok(Some(2))
    }

    fn pull_in(&mut self, _seg: SegId, _page: PageNo, into: &mut [u8]) -> Result<(), Failed>
        ensures given { into.new ≡ wrong_page self.old.next (length into.old) }
        ensures after { self.new ≡ pulled (length into.old) self.old }
        ensures ok { is_ok result ≡ true }
        ensures counts { Counted 1 0 self.old.counts self.new.counts result }
    {
        self.give(into)
    }

    fn push_out(&mut self, _seg: SegId, _page: PageNo, _from: &[u8]) -> Result<(), Failed>
        ensures after { self.new ≡ pushed self.old }
        ensures ok { is_ok result ≡ true }
        ensures counts { Counted 0 1 self.old.counts self.new.counts result }
    {
        self.lose()
    }

    fn get_write_access(&mut self, _seg: SegId, _page: PageNo) -> Result<bool, Failed>
        ensures granted { result ≡ Ok true }
        ensures after { self.new ≡ self.old }
    {
        Ok(true)
    }

    fn swap_in(&mut self, _slot: SlotId, into: &mut [u8]) -> Result<(), Failed>
        ensures given { into.new ≡ wrong_page self.old.next (length into.old) }
        ensures after { self.new ≡ pulled (length into.old) self.old }
        ensures ok { is_ok result ≡ true }
        ensures counts { Counted 1 0 self.old.counts self.new.counts result }
    {
        self.give(into)
    }

    fn swap_out(&mut self, _slot: SlotId, _from: &[u8]) -> Result<(), Failed>
        ensures after { self.new ≡ pushed self.old }
        ensures ok { is_ok result ≡ true }
        ensures counts { Counted 0 1 self.old.counts self.new.counts result }
    {
        self.lose()
    }

    ghost sized = { λ _. tt };
}

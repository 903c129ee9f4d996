// A mapper in memory, which tells what it holds.
ghost use Rattle.std.specs.Prelude.{◌≡◌, ℕ, ◌+◌, ◌-◌, ◌*◌, ◌/◌, ◌<◌, ◌≤◌, ◌==◌, ◌^◌, replicate, ◌||◌, not, nat_le, if◌then◌else◌, option_and_then, [], map, length, slice_get, slice_set, slice_index_or, option_map, Option, IsSome, is_some, All, Some, None, is_err, is_ok, IfOk, OnOk, OnErr};
ghost use Rattle.std.specs.FinMap as FinMap;
ghost use Rattle.vm_ids.specs.Counting.{Counted, no_counts};
ghost use Rattle.vm_ids.specs.Denying.{denies};
ghost use Rattle.vm_ids.specs.Held.{page_of, slot_of, with_page, with_slot};
ghost use Rattle.vm_port.specs.Mapping.{pages_seen, slot_seen, denied_seen, held_of, page_in, put_page_in, filled, cut, pages_of, called, fails_next, MapperInMemory, IsWholeMapper};
ghost use Rattle.vm_port.specs.Telling.{held_sized};

use super::calls::{Calls, fails_now};
use super::pages::{
    Segment, Slot, empty_slots, page_in, put_page, put_slot, read_page, read_slot, segments_of,
    size_of, slot_in,
};
use crate::{CallKind, CallNo, Failed, Mapper};
use std::alloc::Global;
use std::marker::Model;
use vm_ids::{NoMemory, PageNo, SegId, SlotId};

/// A mapper over pages in memory, which tells what it holds. It fails at the calls that it was told
/// to.
#[derive(Drop)]
pub struct MemoryMapper {
    segments: Vec<Segment>,
    slots: Vec<Slot>,
    denied: Vec<(SegId, PageNo)>,
    page_bytes: usize,
    fails: Vec<CallNo>,
    calls: Calls,
    faults: u64,
    pulls: u64,
    pushes: u64,
}

impl Model for MemoryMapper {
    ghost Value = { MapperInMemory };

    ghost view = { λ m. record {
      segments = map pages_seen m.segments.items;
      slots = map slot_seen m.slots.items;
      denied = denied_seen m.denied.items;
      page_bytes = m.page_bytes;
      fails = m.fails.items;
      calls = m.calls;
      counts = record { faults = m.faults; pulls = m.pulls; pushes = m.pushes };
    } };

    ghost invariant = { λ m. IsWholeMapper m.page_bytes m.segments.items m.slots.items };
}

impl MemoryMapper {
    /// Over segments and swap slots in memory, with pages of `page` bytes, 1 to 65,536. Segment k
    /// is the kth vector counted from 1, rounded up to whole pages with zeros. The pages in
    /// `denied` are denied for writing. There are `slots` swap slots, and a push to any other
    /// fails. A call in `fails` fails; beside these nothing fails, and no call takes memory.
    /// `NoMemory` where there is none for the segments and the slots.
    pub fn new(
        alloc: Global,
        segments: &[Vec<u8>],
        denied: &[(SegId, PageNo)],
        slots: u32,
        fails: &[CallNo],
        page: u32,
    ) -> Result<MemoryMapper, NoMemory>
        requires some { 1 ≤ page }
        requires most { page ≤ 2 ^ 16 }
        requires few { length segments.now < 2 ^ 32 }
        requires pages { All (λ s. length s.items ≤ (2 ^ 32 - 1) * page) segments.now }
        ensures { IfOk result (λ m. m ≡ record {
          segments = map (λ s. pages_of page s.items) segments.now;
          slots = replicate slots None;
          denied = denied_seen denied.now;
          page_bytes = page;
          fails = fails.now;
          calls = record {
            size = 0;
            pull_in = 0;
            push_out = 0;
            access = 0;
            swap_in = 0;
            swap_out = 0;
          };
          counts = no_counts;
        }) }
    {
        let page_bytes = page as usize;
        Ok(MemoryMapper {
            segments: segments_of(alloc, segments, page_bytes)?,
            slots: empty_slots(alloc, slots, page_bytes)?,
            denied: Vec::from_slice(alloc, denied)?,
            page_bytes,
            fails: Vec::from_slice(alloc, fails)?,
            calls: Calls {
                size: 0,
                pull_in: 0,
                push_out: 0,
                access: 0,
                swap_in: 0,
                swap_out: 0,
            },
            faults: 0,
            pulls: 0,
            pushes: 0,
        })
    }

    /// Whether a segment is there and has this page.
    pub fn has_page(&self, seg: SegId, page: PageNo) -> bool
        ensures { result ≡ is_some (page_of (held_of self.now) seg.0 page.0) }
    {
        page_in(&self.segments, seg.0, page.0).is_some()
    }

    /// Whether a slot is there and has a page.
    pub fn has_slot(&self, slot: SlotId) -> bool
        ensures { result ≡ is_some (slot_of (held_of self.now) slot.0) }
    {
        slot_in(&self.slots, slot.0).is_some()
    }

    /// A page of a segment, which has it.
    pub fn page(&self, seg: SegId, page: PageNo) -> &[u8]
        requires { IsSome (page_of (held_of self.now) seg.0 page.0) }
        ensures { Some result.now ≡ page_of (held_of self.now) seg.0 page.0 }
    {
        match page_in(&self.segments, seg.0, page.0) {
            Some(bytes) => bytes,
            None => unreachable!(),
        }
    }

    // Counts a call of this kind, with so many pulls and pushes. It fails where it was told to, or
    // can't be answered.
    fn may_fail(
        &mut self,
        kind: CallKind,
        pulls: u64,
        pushes: u64,
        cannot: bool,
    ) -> Result<(), Failed>
        ensures failing { is_err result ≡ (cannot || fails_next kind self.old) }
        ensures after { self.new ≡ called kind pulls pushes (is_err result) self.old }
        ensures counts { Counted pulls pushes self.old.counts self.new.counts result }
    {
        self.pulls = self.pulls.saturating_add(pulls);
        self.pushes = self.pushes.saturating_add(pushes);
        let told = fails_now(&mut self.calls, &self.fails, kind);
        if cannot || told {
            self.faults = self.faults.saturating_add(1);
            return Err(Failed);
        }
        Ok(())
    }

    /// How many pulls were made, those that failed among them.
    pub fn pulls(&self) -> u64
        ensures { result ≡ self.now.counts.pulls }
    {
        self.pulls
    }

    /// How many pushes were made, those that failed among them.
    pub fn pushes(&self) -> u64
        ensures { result ≡ self.now.counts.pushes }
    {
        self.pushes
    }
}

// Whether writing to this page is denied.
fn is_denied(denied: &[(SegId, PageNo)], seg: SegId, page: PageNo) -> bool
    ensures { result ≡ denies (denied_seen denied.now) seg.0 page.0 }
{
    for pair in denied {
        if pair.0.0 == seg.0 && pair.1.0 == page.0 {
            return true;
        }
    }
    false
}

impl Mapper for MemoryMapper {
    ghost held = { λ m. Some (held_of m) };

    ghost given = { λ _. None };

    ghost counts = { λ m. m.counts };

    ghost page_bytes = { λ m. Some m.page_bytes };

    fn size(&mut self, seg: SegId) -> Result<Option<u32>, Failed>
        ensures pages { IfOk result
            (λ pages. pages ≡ option_map length (FinMap.get (held_of self.old).segments seg.0)) }
        ensures counts { Counted 0 0 self.old.counts self.new.counts result }
        ensures failing { is_err result ≡ fails_next CallKind.Size self.old }
        ensures after { self.new ≡ called CallKind.Size 0 0 (is_err result) self.old }
    {
        self.may_fail(CallKind::Size, 0, 0, false)?;
        Ok(size_of(&self.segments, seg.0))
    }

    fn pull_in(&mut self, seg: SegId, page: PageNo, into: &mut [u8]) -> Result<(), Failed>
        requires room { length into.old ≡ self.old.page_bytes }
        requires there { IsSome (page_of (held_of self.old) seg.0 page.0) }
        ensures bytes { OnOk result (page_of (held_of self.old) seg.0 page.0 ≡ Some into.new) }
        ensures counts { Counted 1 0 self.old.counts self.new.counts result }
        ensures failing { is_err result ≡ fails_next CallKind.PullIn self.old }
        ensures after { self.new ≡ called CallKind.PullIn 1 0 (is_err result) self.old }
    {
        self.may_fail(CallKind::PullIn, 1, 0, false)?;
        read_page(&self.segments, seg.0, page.0, into);
        Ok(())
    }

    fn push_out(&mut self, seg: SegId, page: PageNo, from: &[u8]) -> Result<(), Failed>
        requires room { length from.now ≡ self.old.page_bytes }
        requires there { IsSome (page_of (held_of self.old) seg.0 page.0) }
        ensures held { held_of self.new
            ≡ (if is_ok result then with_page seg.0 page.0 from.now (held_of self.old)
            else held_of self.old) }
        ensures counts { Counted 0 1 self.old.counts self.new.counts result }
        ensures failing { is_err result ≡ fails_next CallKind.PushOut self.old }
        ensures after { self.new
            ≡ record (called CallKind.PushOut 0 1
            (is_err result) self.old) {
              segments = if is_ok result
                  then put_page_in self.old.segments seg.0 page.0 from.now else self.old.segments;
            } }
    {
        self.may_fail(CallKind::PushOut, 0, 1, false)?;
        put_page(&mut self.segments, seg.0, page.0, from);
        Ok(())
    }

    fn get_write_access(&mut self, seg: SegId, page: PageNo) -> Result<bool, Failed>
        requires { IsSome (page_of (held_of self.old) seg.0 page.0) }
        ensures granted { IfOk result (λ may. may ≡ not (denies self.old.denied seg.0 page.0)) }
        ensures counts { Counted 0 0 self.old.counts self.new.counts result }
        ensures failing { is_err result ≡ fails_next CallKind.Access self.old }
        ensures after { self.new ≡ called CallKind.Access 0 0 (is_err result) self.old }
    {
        self.may_fail(CallKind::Access, 0, 0, false)?;
        Ok(!is_denied(&self.denied, seg, page))
    }

    fn swap_in(&mut self, slot: SlotId, into: &mut [u8]) -> Result<(), Failed>
        requires room { length into.old ≡ self.old.page_bytes }
        requires there { IsSome (slot_of (held_of self.old) slot.0) }
        ensures bytes { OnOk result (slot_of (held_of self.old) slot.0 ≡ Some into.new) }
        ensures counts { Counted 1 0 self.old.counts self.new.counts result }
        ensures failing { is_err result ≡ fails_next CallKind.SwapIn self.old }
        ensures after { self.new ≡ called CallKind.SwapIn 1 0 (is_err result) self.old }
    {
        self.may_fail(CallKind::SwapIn, 1, 0, false)?;
        read_slot(&self.slots, slot.0, into);
        Ok(())
    }

    fn swap_out(&mut self, slot: SlotId, from: &[u8]) -> Result<(), Failed>
        requires { length from.now ≡ self.old.page_bytes }
        ensures held { held_of self.new
            ≡ (if is_ok result then with_slot slot.0 from.now (held_of self.old)
            else held_of self.old) }
        ensures counts { Counted 0 1 self.old.counts self.new.counts result }
        ensures failing { is_err result
            ≡ (fails_next CallKind.SwapOut self.old || nat_le (length self.old.slots) slot.0) }
        ensures after { self.new
            ≡ record (called CallKind.SwapOut 0 1
            (is_err result) self.old) {
              slots = if is_ok result
                  then slice_set self.old.slots slot.0 (Some from.now) else self.old.slots;
            } }
    {
        let beyond = slot.0 as usize >= self.slots.len();
        self.may_fail(CallKind::SwapOut, 0, 1, beyond)?;
        put_slot(&mut self.slots, slot.0, from);
        Ok(())
    }

    ghost sized = { held_sized };
}

// The pages of segments and swap slots in memory.
ghost use Rattle.std.specs.Prelude.{◌≡◌, ℕ, ◌+◌, ◌-◌, ◌*◌, ◌/◌, ◌<◌, ◌≤◌, ◌==◌, ◌^◌, replicate, if◌then◌else◌, option_and_then, map, length, slice_get, slice_set, option_map, IsSome, All, Some, None, IfOk};
ghost use Rattle.vm_port.specs.Mapping.{pages_seen, slot_seen, page_in, put_page_in, filled, cut, pages_of};

use std::alloc::{AllocError, Global};

// The pages of one segment.
#[derive(Drop)]
pub(crate) struct Segment {
    pub pages: Vec<Vec<u8>>,
}

// The room of one swap slot, and whether a page was pushed to it.
#[derive(Drop)]
pub(crate) struct Slot {
    pub is_held: bool,
    pub bytes: Vec<u8>,
}

// Bytes of one page, filled up with zeros.
fn filled(alloc: Global, bytes: &[u8], page_bytes: usize) -> Result<Vec<u8>, AllocError>
    requires { length bytes.now ≤ page_bytes }
    ensures filled { IfOk result (λ v. v.items ≡ filled page_bytes bytes.now) }
    ensures whole { IfOk result (λ v. length v.items ≡ page_bytes) }
{
    let mut page = Vec::with_capacity(alloc, page_bytes)?;
    page.extend_from_slice(bytes)?;
    page.resize(page_bytes, 0)?;
    Ok(page)
}

// So many pages of bytes.
fn cut(
    alloc: Global,
    bytes: &[u8],
    pages: usize,
    page_bytes: usize,
) -> Result<Vec<Vec<u8>>, AllocError>
    ensures seen { IfOk result (λ v. map (λ p. p.items) v.items ≡ cut pages page_bytes bytes.now) }
    ensures whole { IfOk result (λ v. All (λ p. length p.items ≡ page_bytes) v.items) }
    ensures many { IfOk result (λ v. length v.items ≡ pages) }
{
    let mut all = Vec::with_capacity(alloc, pages)?;
    let mut rest = bytes;
    for _page in 0..pages {
        let (front, back) = rest.split_at(rest.len().min(page_bytes));
        all.push(filled(alloc, front, page_bytes)?)?;
        rest = back;
    }
    Ok(all)
}

// How many pages so many bytes need.
fn pages_needed(bytes: usize, page_bytes: usize) -> usize
    requires some { 1 ≤ page_bytes }
    requires most { bytes ≤ (2 ^ 32 - 1) * page_bytes }
    ensures number { result ≡ (bytes + page_bytes - 1) / page_bytes }
    ensures few { result < 2 ^ 32 }
{
    bytes.div_ceil(page_bytes)
}

// The segments of these bytes.
pub(crate) fn segments_of(
    alloc: Global,
    segments: &[Vec<u8>],
    page_bytes: usize,
) -> Result<Vec<Segment>, AllocError>
    requires some { 1 ≤ page_bytes }
    requires pages { All (λ s. length s.items ≤ (2 ^ 32 - 1) * page_bytes) segments.now }
    ensures seen { IfOk result
        (λ v. map pages_seen v.items ≡ map (λ s. pages_of page_bytes s.items) segments.now) }
    ensures whole { IfOk result
        (λ v. All (λ s. All (λ p. length p.items ≡ page_bytes) s.pages.items) v.items) }
    ensures few { IfOk result (λ v. All (λ s. length s.pages.items < 2 ^ 32) v.items) }
{
    let mut all = Vec::with_capacity(alloc, segments.len())?;
    for bytes in segments {
        let pages = pages_needed(bytes.len(), page_bytes);
        all.push(Segment {
            pages: cut(alloc, bytes, pages, page_bytes)?,
        })?;
    }
    Ok(all)
}

// So many slots without a page.
pub(crate) fn empty_slots(
    alloc: Global,
    slots: u32,
    page_bytes: usize,
) -> Result<Vec<Slot>, AllocError>
    ensures seen { IfOk result (λ v. map slot_seen v.items ≡ replicate slots None) }
    ensures whole { IfOk result (λ v. All (λ s. length s.bytes.items ≡ page_bytes) v.items) }
{
    let mut all = Vec::with_capacity(alloc, slots as usize)?;
    for _slot in 0..slots {
        let mut bytes = Vec::with_capacity(alloc, page_bytes)?;
        bytes.resize(page_bytes, 0)?;
        all.push(Slot {
            is_held: false,
            bytes,
        })?;
    }
    Ok(all)
}

// A page of a segment, where it is there.
pub(crate) fn page_in(segments: &[Segment], seg: u32, page: u32) -> Option<&[u8]>
    ensures { option_map (λ p. p.now) result ≡ page_in (map pages_seen segments.now) seg page }
{
    if seg == 0 {
        return None;
    }
    let segment = segments.get(seg as usize - 1)?;
    let page = segment.pages.get(page as usize)?;
    Some(page)
}

// The bytes of a page of a segment.
pub(crate) fn read_page(segments: &[Segment], seg: u32, page: u32, into: &mut [u8])
    requires there { IsSome (page_in (map pages_seen segments.now) seg page) }
    requires whole { All
        (λ s. All (λ p. length p.items ≡ length into.old) s.pages.items) segments.now }
    ensures { page_in (map pages_seen segments.now) seg page ≡ Some into.new }
{
    match page_in(segments, seg, page) {
        Some(bytes) => into.copy_from_slice(bytes),
        None => unreachable!(),
    }
}

// The page of a segment becomes these bytes.
fn put_in(segment: &mut Segment, page: u32, from: &[u8])
    requires there { page < length segment.old.pages.items }
    requires whole { All (λ p. length p.items ≡ length from.now) segment.old.pages.items }
    ensures whole { All (λ p. length p.items ≡ length from.now) segment.new.pages.items }
    ensures many { length segment.new.pages.items ≡ length segment.old.pages.items }
    ensures put { pages_seen segment.new ≡ slice_set (pages_seen segment.old) page from.now }
{
    let bytes = &mut segment.pages[page as usize];
    bytes.copy_from_slice(from);
}

pub(crate) fn put_page(segments: &mut Vec<Segment>, seg: u32, page: u32, from: &[u8])
    requires there { IsSome (page_in (map pages_seen segments.old.items) seg page) }
    requires whole { All
        (λ s. All (λ p. length p.items ≡ length from.now) s.pages.items) segments.old.items }
    ensures whole { All
        (λ s. All (λ p. length p.items ≡ length from.now) s.pages.items) segments.new.items }
    ensures few { All (λ s. length s.pages.items < 2 ^ 32) segments.old.items
        → All (λ s. length s.pages.items < 2 ^ 32) segments.new.items }
    ensures put { map pages_seen segments.new.items
        ≡ put_page_in (map pages_seen segments.old.items) seg page from.now }
{
    put_in(&mut segments[seg as usize - 1], page, from);
}

// The page of a slot becomes these bytes.
pub(crate) fn put_slot(slots: &mut Vec<Slot>, slot: u32, from: &[u8])
    requires there { slot < length slots.old.items }
    requires whole { All (λ s. length s.bytes.items ≡ length from.now) slots.old.items }
    ensures whole { All (λ s. length s.bytes.items ≡ length from.now) slots.new.items }
    ensures put { map slot_seen slots.new.items
        ≡ slice_set (map slot_seen slots.old.items) slot (Some from.now) }
{
    let slot = &mut slots[slot as usize];
    slot.bytes.copy_from_slice(from);
    slot.is_held = true;
}

// The page of a slot, where it has one.
pub(crate) fn slot_in(slots: &[Slot], slot: u32) -> Option<&[u8]>
    ensures { option_map (λ p. p.now) result
        ≡ option_and_then (λ o. o) (slice_get (map slot_seen slots.now) slot) }
{
    slot_page(slots.get(slot as usize)?)
}

fn slot_page(slot: &Slot) -> Option<&[u8]>
    ensures { option_map (λ p. p.now) result ≡ slot_seen slot.now }
{
    if slot.is_held {
        Some(&slot.bytes)
    } else {
        None
    }
}

// The bytes of a slot's page.
pub(crate) fn read_slot(slots: &[Slot], slot: u32, into: &mut [u8])
    requires there { IsSome (option_and_then (λ o. o) (slice_get (map slot_seen slots.now) slot)) }
    requires whole { All (λ s. length s.bytes.items ≡ length into.old) slots.now }
    ensures { option_and_then (λ o. o) (slice_get (map slot_seen slots.now) slot) ≡ Some into.new }
{
    match slot_in(slots, slot) {
        Some(bytes) => into.copy_from_slice(bytes),
        None => unreachable!(),
    }
}

// How many pages a segment has, where it is there.
pub(crate) fn size_of(segments: &[Segment], seg: u32) -> Option<u32>
    requires { All (λ s. length s.pages.items < 2 ^ 32) segments.now }
    ensures { result
        ≡ (if seg == 0 then None
        else option_map length (slice_get (map pages_seen segments.now) (seg - 1))) }
{
    if seg == 0 {
        return None;
    }
    let segment = segments.get(seg as usize - 1)?;
    Some(segment.pages.len() as u32)
}

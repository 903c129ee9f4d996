// Chains of places, and the buckets that they are.
ghost use Rattle.std.specs.Prelude.{◌≡◌, ◌≢◌, ℕ, ◌+◌, ◌-◌, ◌^◌, ◌<◌, ◌≤◌, ◌==◌, if◌then◌else◌, not, length, Some, IfNone, IfSome, None, vec_len, vec_capacity};
ghost use Rattle.linear_index.specs.Buckets.{is_for, IsHashed};
ghost use Rattle.linear_index.specs.Chains.{cell_at, key_at, next_at, Ends, IsIn, IsPart, KeepsOthers, SameKeys};

use crate::cell::{Cell, FREE, Link};
use crate::hashes::{bucket_of_hash, hash, mask_for_more};
use crate::head::Head;

// The place of a key in the chain from this place on.
pub(crate) fn place_in(cells: &[Cell], first: Option<u32>, key: u64) -> Option<u32>
    requires { Ends cells.now first }
    ensures found { IfSome result (λ place. IsIn cells.now first place
        × ((cell_at cells.now place).key ≡ key)) }
    ensures absent { IfNone result
        ((place : ℕ) → IsIn cells.now first place → (cell_at cells.now place).key ≢ key) }
{
    let mut next = first;
    while let Some(place) = next {
        let cell = &cells[place as usize];
        if cell.key == key {
            return Some(place);
        }
        next = cell.link.next();
    }
    None
}

// Sees to it that there is a cell for a place.
fn cover(cells: &mut Vec<Cell>, place: u32)
    requires { place < vec_capacity cells.old }
    ensures covered { place < length cells.new.items }
    ensures same { (p : ℕ) → cell_at cells.new.items p ≡ cell_at cells.old.items p }
    ensures no_fewer { length cells.old.items ≤ length cells.new.items }
    ensures few { (room : ℕ) → length cells.old.items ≤ room → place < room
        → length cells.new.items ≤ room }
    ensures capacity { vec_capacity cells.new ≡ vec_capacity cells.old }
{
    while cells.len() <= place as usize {
        cells.push_reserved(FREE);
    }
}

// The place before this one in a chain that begins at another.
fn before(cells: &[Cell], first: u32, place: u32) -> u32
    requires on { IsIn cells.now (Some first) place }
    requires behind { first ≢ place }
    ensures on { IsIn cells.now (Some first) result }
    ensures next { next_at cells.now result ≡ Some place }
{
    let mut before = first;
    while let Some(next) = cells[before as usize].link.next() {
        if next == place {
            return before;
        }
        before = next;
    }
    unreachable!()
}

// Takes a place, which is in the chain from the first place on, out of it. Returns where the chain
// begins then.
fn without(cells: &mut [Cell], first: u32, place: u32) -> Option<u32>
    requires { IsIn cells.old (Some first) place }
    ensures rest { IsPart cells.old cells.new (Some first) result (λ p. not (p == place)) }
    ensures others { KeepsOthers cells.old cells.new (Some first) }
    ensures keys { SameKeys cells.old cells.new }
{
    let behind = cells[place as usize].link;
    if first == place {
        return behind.next();
    }
    let cell = &mut cells[before(cells, first, place) as usize];
    cell.link = behind;
    Some(first)
}

// Divides the chain from this place on: the places whose keys have another bucket by this mask, and
// those that have this one.
fn divide(
    cells: &mut [Cell],
    first: Option<u32>,
    mask: usize,
    bucket: usize,
) -> (Option<u32>, Option<u32>)
    requires { Ends cells.old first }
    ensures stay { IsPart cells.old cells.new first result.0
        (λ p. not (is_for cells.old mask bucket p)) }
    ensures go { IsPart cells.old cells.new first result.1 (is_for cells.old mask bucket) }
    ensures others { KeepsOthers cells.old cells.new first }
    ensures keys { SameKeys cells.old cells.new }
{
    let mut next = first;
    let mut stay = None;
    let mut go = None;
    while let Some(place) = next {
        let cell = &mut cells[place as usize];
        next = cell.link.next();
        if hash(cell.key) & mask == bucket {
            cell.link = Link::to(go);
            go = Some(place);
        } else {
            cell.link = Link::to(stay);
            stay = Some(place);
        }
    }
    (stay, go)
}

// One bucket more, for which there is memory. Returns the mask for so many.
fn add_bucket(heads: &mut Vec<Head>, cells: &mut [Cell], mask: usize) -> usize
    requires hashed { IsHashed heads.old.items cells.old mask }
    requires room { vec_len heads.old < vec_capacity heads.old }
    requires few { length cells.old < 2 ^ 32 }
    ensures hashed { IsHashed heads.new.items cells.new result }
    ensures more { length heads.new.items ≡ length heads.old.items + 1 }
    ensures capacity { vec_capacity heads.new ≡ vec_capacity heads.old }
    ensures keys { SameKeys cells.old cells.new }
{
    let new = heads.len();
    heads.push_reserved(Head::of(None));
    if new == 0 {
        return mask;
    }
    let mask = mask_for_more(mask, new);
    let old = new & (mask >> 1);
    let (stay, go) = divide(cells, heads[old].place(), mask, new);
    heads[old] = Head::of(stay);
    heads[new] = Head::of(go);
    mask
}

// Sees to it that there is a cell for a place, and a bucket at least, and adds one where there are
// fewer buckets than cells. Returns the mask for so many.
pub(crate) fn make_place(
    heads: &mut Vec<Head>,
    cells: &mut Vec<Cell>,
    mask: usize,
    place: u32,
) -> usize
    requires hashed { IsHashed heads.old.items cells.old.items mask }
    requires place { place < vec_capacity cells.old }
    requires bucket { place < vec_capacity heads.old }
    requires room { length cells.old.items ≤ vec_capacity heads.old }
    requires few { length cells.old.items < 2 ^ 32 }
    requires below { place < 2 ^ 32 - 1 }
    ensures hashed { IsHashed heads.new.items cells.new.items result }
    ensures bucket { 0 < length heads.new.items }
    ensures place { place < length cells.new.items }
    ensures keys { SameKeys cells.old.items cells.new.items }
    ensures few { (room : ℕ) → length cells.old.items ≤ room → place < room
        → length cells.new.items ≤ room }
    ensures heads_capacity { vec_capacity heads.new ≡ vec_capacity heads.old }
    ensures cells_capacity { vec_capacity cells.new ≡ vec_capacity cells.old }
{
    cover(cells, place);
    if heads.len() < cells.len() {
        add_bucket(heads, cells, mask)
    } else {
        mask
    }
}

// Enters a key at a place.
pub(crate) fn put_in(heads: &mut [Head], cells: &mut [Cell], mask: usize, key: u64, place: u32)
    requires hashed { IsHashed heads.old cells.old mask }
    requires bucket { 0 < length heads.old }
    requires place { place < length cells.old }
    requires free { key_at cells.old place ≡ None }
    requires new_key { (p : ℕ) → key_at cells.old p ≢ Some key }
    requires few { length cells.old < 2 ^ 32 }
    ensures hashed { IsHashed heads.new cells.new mask }
    ensures keys { (p : ℕ) → key_at cells.new p
        ≡ (if p == place then Some key else key_at cells.old p) }
{
    let bucket = bucket_of_hash(hash(key), mask, heads.len());
    cells[place as usize] = Cell {
        key,
        link: Link::to(heads[bucket].place()),
    };
    heads[bucket] = Head::of(Some(place));
}

// A key, which is entered at this place, goes.
pub(crate) fn take_out(heads: &mut [Head], cells: &mut [Cell], mask: usize, key: u64, place: u32)
    requires hashed { IsHashed heads.old cells.old mask }
    requires entered { key_at cells.old place ≡ Some key }
    requires few { length cells.old < 2 ^ 32 }
    ensures hashed { IsHashed heads.new cells.new mask }
    ensures keys { (p : ℕ) → key_at cells.new p
        ≡ (if p == place then None else key_at cells.old p) }
{
    let bucket = bucket_of_hash(hash(key), mask, heads.len());
    let first = heads[bucket].place().unwrap();
    heads[bucket] = Head::of(without(cells, first, place));
    let cell = &mut cells[place as usize];
    cell.link = Link::Free;
}

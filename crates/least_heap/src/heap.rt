// The heap on its own: how a number finds its index, from below or from above.
ghost use Rattle.std.specs.Prelude.{◌≡◌, ℕ, ◌+◌, ◌*◌, ◌<◌, ◌≤◌, ◌^◌, [], ◌∷◌, ◌++◌, length, slice_set, IfNone, IfSome, vec_capacity};
ghost use Rattle.least_heap.specs.Heaps.{HasPlace, IsHeap, IsRefilling, IsRising, IsSinking, IsWithout, number_at, SameNumbers};

/// A number and its place.
#[derive(Clone, Copy, PartialEq, Eq, Debug)]
pub struct Numbered {
    pub number: u64,
    pub place: u32,
}

// Writes a number at an index, and that its place stands there.
fn stand(heap: &mut [Numbered], stands: &mut [u32], index: usize, numbered: Numbered)
    requires index { index < length heap.old }
    requires place { numbered.place < length stands.old }
    requires few { length heap.old < 2 ^ 32 }
    ensures heap { heap.new ≡ slice_set heap.old index numbered }
    ensures stands { stands.new ≡ slice_set stands.old numbered.place index }
{
    heap[index] = numbered;
    stands[numbered.place as usize] = index as u32;
}

// The index above, where the number there is greater than this one.
fn greater_above(heap: &[Numbered], index: usize, number: u64) -> Option<usize>
    requires { index < length heap.now }
    ensures above { IfSome result (λ above. (2 * above < index) × (index ≤ 2 * above + 2)) }
    ensures greater { IfSome result (λ above. number < number_at heap.now above) }
    ensures none { IfNone result ((above : ℕ) → 2 * above < index → index ≤ 2 * above + 2
        → number_at heap.now above ≤ number) }
{
    if index == 0 {
        return None;
    }
    let above = (index - 1) / 2;
    if number < heap[above].number {
        Some(above)
    } else {
        None
    }
}

// Puts a number at an index, or further up, where those above are greater.
fn rise(heap: &mut [Numbered], stands: &mut [u32], index: usize, numbered: Numbered)
    requires rising { IsRising (slice_set heap.old index numbered) stands.old index }
    requires index { index < length heap.old }
    requires few { length heap.old < 2 ^ 32 }
    ensures heap { IsHeap heap.new stands.new }
    ensures same { SameNumbers (slice_set heap.old index numbered) heap.new }
{
    let mut hole = index;
    while let Some(above) = greater_above(heap, hole, numbered.number) {
        let other = heap[above];
        stand(heap, stands, hole, other);
        hole = above;
    }
    stand(heap, stands, hole, numbered);
}

// The lesser of the numbers below an index, of which there is one.
fn lesser_below(heap: &[Numbered], index: usize) -> usize
    requires { 2 * index + 1 < length heap.now }
    ensures below { (2 * index < result) × (result ≤ 2 * index + 2) × (result < length heap.now) }
    ensures least { (i : ℕ) → 2 * index < i → i ≤ 2 * index + 2 → i < length heap.now
        → number_at heap.now result ≤ number_at heap.now i }
{
    let one = 2 * index + 1;
    let other = one + 1;
    if other < heap.len() && heap[other].number < heap[one].number {
        other
    } else {
        one
    }
}

// The index of the least number below, where that is less than this one.
fn less_below(heap: &[Numbered], index: usize, number: u64) -> Option<usize>
    requires { index < length heap.now }
    ensures below { IfSome result (λ below. (2 * index < below) × (below ≤ 2 * index + 2)
        × (below < length heap.now)) }
    ensures less { IfSome result (λ below. number_at heap.now below < number) }
    ensures least { IfSome result (λ below. (i : ℕ) → 2 * index < i → i ≤ 2 * index + 2
        → i < length heap.now → number_at heap.now below ≤ number_at heap.now i) }
    ensures none { IfNone result ((i : ℕ) → 2 * index < i → i ≤ 2 * index + 2
        → i < length heap.now → number ≤ number_at heap.now i) }
{
    if 2 * index + 1 >= heap.len() {
        return None;
    }
    let below = lesser_below(heap, index);
    if heap[below].number < number {
        Some(below)
    } else {
        None
    }
}

// Puts a number at an index, or further down, where one below is less.
fn sink(heap: &mut [Numbered], stands: &mut [u32], index: usize, numbered: Numbered)
    requires sinking { IsSinking (slice_set heap.old index numbered) stands.old index }
    requires index { index < length heap.old }
    requires few { length heap.old < 2 ^ 32 }
    ensures heap { IsHeap heap.new stands.new }
    ensures same { SameNumbers (slice_set heap.old index numbered) heap.new }
{
    let mut hole = index;
    while let Some(below) = less_below(heap, hole, numbered.number) {
        let other = heap[below];
        stand(heap, stands, hole, other);
        hole = below;
    }
    stand(heap, stands, hole, numbered);
}

// Puts a number at the index of one that went, or further up or down.
fn refill(heap: &mut [Numbered], stands: &mut [u32], index: usize, numbered: Numbered)
    requires refilling { IsRefilling (slice_set heap.old index numbered) stands.old index }
    requires index { index < length heap.old }
    requires few { length heap.old < 2 ^ 32 }
    ensures heap { IsHeap heap.new stands.new }
    ensures same { SameNumbers (slice_set heap.old index numbered) heap.new }
{
    match greater_above(heap, index, numbered.number) {
        Some(_) => rise(heap, stands, index, numbered),
        None => sink(heap, stands, index, numbered),
    }
}

// Puts a number in, at a place that has none.
pub(crate) fn put_in(heap: &mut Vec<Numbered>, stands: &mut [u32], numbered: Numbered)
    requires heap { IsHeap heap.old.items stands.old }
    requires free { ¬ HasPlace heap.old.items numbered.place }
    requires place { numbered.place < length stands.old }
    requires few { length stands.old < 2 ^ 32 }
    requires room { length stands.old ≤ vec_capacity heap.old }
    ensures heap { IsHeap heap.new.items stands.new }
    ensures same { SameNumbers (heap.old.items ++ numbered ∷ []) heap.new.items }
    ensures capacity { vec_capacity heap.new ≡ vec_capacity heap.old }
{
    let index = heap.len();
    heap.push_reserved(numbered);
    rise(heap, stands, index, numbered);
}

// Takes the number at a place out.
pub(crate) fn take_out(heap: &mut Vec<Numbered>, stands: &mut [u32], place: u32)
    requires heap { IsHeap heap.old.items stands.old }
    requires there { HasPlace heap.old.items place }
    requires few { length stands.old < 2 ^ 32 }
    ensures heap { IsHeap heap.new.items stands.new }
    ensures rest { IsWithout heap.old.items heap.new.items place }
    ensures capacity { vec_capacity heap.new ≡ vec_capacity heap.old }
{
    let index = stands[place as usize] as usize;
    let last = heap.pop().unwrap();
    if index < heap.len() {
        refill(heap, stands, index, last);
    }
}

// The clock.
ghost use Rattle.std.specs.Prelude.{◌≡◌, ◌⊎◌, ℕ, ◌+◌, ◌≤◌, ◌<◌, true, false, length, slice_get, Some, Contains, IfSome, IfNone, unwrap_or};
ghost use Rattle.vm_port.specs.Choosing.{hand_in, next_true, is_passed, IsPassed, IsUnmarked};

use super::fifo::next_true;
use crate::Chooser;
use std::marker::Model;

/// A chooser by the clock, or second chance: from its hand upwards and once round it picks the
/// first frame that may be evicted and isn't marked as referenced, and clears each mark that it
/// passes. Where every such frame is marked, it picks the first from the hand that may be evicted.
/// The hand then stands behind the pick.
#[derive(Drop)]
pub struct Clock {
    hand: usize,
}

impl Model for Clock {
    ghost Value = { ℕ };

    ghost view = { λ c. c.hand };
}

impl Clock {
    /// The hand starts at place 0.
    pub fn new() -> Clock
        ensures { result ≡ 0 }
    {
        Clock { hand: 0 }
    }
}

// The first place from `from` on and below `to` that may be picked and isn't marked. The marks
// before it are cleared.
fn sweep(may: &[bool], referenced: &mut [bool], from: usize, to: usize) -> Option<usize>
    requires lengths { length referenced.old ≡ length may.now }
    requires order { from ≤ to }
    requires end { to ≤ length may.now }
    ensures within { IfSome result (λ p. (from ≤ p) × (p < to)) }
    ensures unmarked { IfSome result (λ p. IsUnmarked may.now referenced.old p) }
    ensures first { (k : ℕ) → from ≤ k → k < unwrap_or result to
        → IsUnmarked may.now referenced.old k → ⊥ }
    ensures cleared { (k : ℕ) → from ≤ k → k < unwrap_or result to
        → slice_get referenced.new k ≡ Some false }
    ensures kept { (k : ℕ) → (k < from) ⊎ (unwrap_or result to ≤ k)
        → slice_get referenced.new k ≡ slice_get referenced.old k }
{
    for place in from..to {
        if referenced[place] {
            referenced[place] = false;
        } else if may[place] {
            return Some(place);
        }
    }
    None
}

// The same from the hand on, and once round.
fn sweep_round(may: &[bool], referenced: &mut [bool], hand: usize) -> Option<usize>
    requires lengths { length referenced.old ≡ length may.now }
    requires inside { hand ≤ length may.now }
    ensures unmarked { IfSome result (λ p. IsUnmarked may.now referenced.old p) }
    ensures first { IfSome result
        (λ p. (k : ℕ) → IsUnmarked may.now referenced.old k → IsPassed hand p k → ⊥) }
    ensures cleared { IfSome result
        (λ p. (k : ℕ) → k < length may.now → IsPassed hand p k
        → slice_get referenced.new k ≡ Some false) }
    ensures kept { IfSome result
        (λ p. (k : ℕ) → is_passed hand p k ≡ false
        → slice_get referenced.new k ≡ slice_get referenced.old k) }
    ensures none { IfNone result ((k : ℕ) → IsUnmarked may.now referenced.old k → ⊥) }
    ensures all_cleared { IfNone result
        ((k : ℕ) → k < length may.now → slice_get referenced.new k ≡ Some false) }
{
    if let Some(place) = sweep(may, referenced, hand, may.len()) {
        return Some(place);
    }
    sweep(may, referenced, 0, hand)
}

impl Chooser for Clock {
    fn pick(&mut self, may: &[bool], referenced: &mut [bool]) -> usize
        requires lengths { length referenced.old ≡ length may.now }
        requires some { Contains may.now true }
        ensures may { slice_get may.now result ≡ Some true }
        ensures marks { (k : ℕ) → slice_get referenced.new k ≡ Some true
            → slice_get referenced.old k ≡ Some true }
        ensures hand { self.new ≡ result + 1 }
        // Where some frame isn't marked, it picks the first such from the hand, and clears just the
        // marks before it.
        ensures unmarked { (k : ℕ) → IsUnmarked may.now referenced.old k
            → IsUnmarked may.now referenced.old result }
        ensures first { (k : ℕ) → IsUnmarked may.now referenced.old k
            → IsPassed (hand_in may.now self.old) result k → ⊥ }
        ensures cleared { IsUnmarked may.now referenced.old result → (k : ℕ) → k < length may.now
            → IsPassed (hand_in may.now self.old) result k
            → slice_get referenced.new k ≡ Some false }
        ensures kept { IsUnmarked may.now referenced.old result → (k : ℕ)
            → is_passed (hand_in may.now self.old) result k ≡ false
            → slice_get referenced.new k ≡ slice_get referenced.old k }
        // Else it picks the first from the hand, and clears all marks.
        ensures round { ((k : ℕ) → IsUnmarked may.now referenced.old k → ⊥)
            → result ≡ next_true may.now (hand_in may.now self.old) }
        ensures all_cleared { ((k : ℕ) → IsUnmarked may.now referenced.old k → ⊥) → (k : ℕ)
            → k < length may.now → slice_get referenced.new k ≡ Some false }
    {
        let hand = if self.hand < may.len() { self.hand } else { 0 };
        let place = match sweep_round(may, referenced, hand) {
            Some(place) => place,
            None => next_true(may, hand),
        };
        self.hand = place + 1;
        place
    }
}

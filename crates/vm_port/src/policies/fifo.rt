// First in, first out.
ghost use Rattle.std.specs.Prelude.{◌≡◌, ℕ, ◌+◌, ◌≤◌, true, length, slice_get, Some, Contains, drop, position, option_map, IfSome, IsSome};
ghost use Rattle.vm_port.specs.Choosing.{next_true};

use crate::Chooser;
use std::marker::Model;

/// A chooser that goes round, first in, first out: it picks the first frame at or after its hand
/// that may be evicted, and moves its hand behind it. Marks don't matter to it.
#[derive(Drop)]
pub struct Fifo {
    hand: usize,
}

impl Model for Fifo {
    ghost Value = { ℕ };

    ghost view = { λ f. f.hand };
}

impl Fifo {
    /// The hand starts at place 0.
    pub fn new() -> Fifo
        ensures { result ≡ 0 }
    {
        Fifo { hand: 0 }
    }
}

// The first place that is true.
#[tactic(auto, using(crate::proofs::Choosing::true_at, crate::proofs::Choosing::some_true))]
fn first_true(may: &[bool]) -> Option<usize>
    ensures place { result ≡ position (λ b. b) may.now }
    ensures may { IfSome result (λ i. slice_get may.now i ≡ Some true) }
    ensures some { Contains may.now true → IsSome result }
{
    may.iter().position(|b| *b)
}

// The first place from `hand` on that is true.
#[tactic(auto, using(crate::proofs::Choosing::get_drop))]
fn true_from(may: &[bool], hand: usize) -> Option<usize>
    requires { hand ≤ length may.now }
    ensures place { result ≡ option_map (λ i. hand + i) (position (λ b. b) (drop hand may.now)) }
    ensures may { IfSome result (λ i. slice_get may.now i ≡ Some true) }
{
    let place = first_true(&may[hand..])?;
    Some(hand + place)
}

// The first place from `hand` on that is true, once round.
pub(crate) fn next_true(may: &[bool], hand: usize) -> usize
    requires some { Contains may.now true }
    ensures place { result ≡ next_true may.now hand }
    ensures may { slice_get may.now result ≡ Some true }
{
    if hand < may.len() {
        if let Some(place) = true_from(may, hand) {
            return place;
        }
    }
    match first_true(may) {
        Some(place) => place,
        None => unreachable!(),
    }
}

impl Chooser for Fifo {
    fn pick(&mut self, may: &[bool], referenced: &mut [bool]) -> usize
        requires lengths { length referenced.old ≡ length may.now }
        requires some { Contains may.now true }
        ensures may { slice_get may.now result ≡ Some true }
        ensures marks { (k : ℕ) → slice_get referenced.new k ≡ Some true
            → slice_get referenced.old k ≡ Some true }
        ensures place { result ≡ next_true may.now self.old }
        ensures hand { self.new ≡ result + 1 }
        ensures same_marks { referenced.new ≡ referenced.old }
    {
        let place = next_true(may, self.hand);
        self.hand = place + 1;
        place
    }
}

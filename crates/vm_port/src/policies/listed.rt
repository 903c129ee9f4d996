// Choices by a list.
ghost use Rattle.std.specs.Prelude.{◌≡◌, ℕ, ◌+◌, ◌%◌, ◌<◌, ◌≤◌, List, true, length, slice_get, Some, Contains, drop, count_by};
ghost use Rattle.vm_port.specs.Choosing.{chosen, next_choice, nth_true, true_places};

use crate::Chooser;
use std::marker::Model;

/// A chooser that does as a list says: each pick takes the next number of the list, 0 once it is
/// used up, and picks the place of that number among the frames that may be evicted, counted from 0
/// and round. Marks don't matter to it.
pub struct Listed<'a> {
    choices: &'a [u32],
}

impl<'a> Model for Listed<'a> {
    ghost Value = { List ℕ };

    ghost view = { λ l. l.choices.now };
}

impl<'a> Drop for Listed<'a> {
    fn drop(self) {
        let Listed { choices: _ } = self;
    }
}

impl<'a> Listed<'a> {
    /// By these choices.
    pub fn new(choices: &'a [u32]) -> Listed<'a>
        ensures { result ≡ choices.now }
    {
        Listed { choices }
    }

    // The next number of the list.
    fn next(&mut self) -> u32
        ensures choice { result ≡ next_choice self.old }
        ensures rest { self.new ≡ drop 1 self.old }
    {
        let choices = self.choices;
        if choices.is_empty() {
            return 0;
        }
        self.choices = &choices[1..];
        choices[0]
    }
}

// How many places are true.
#[tactic(auto, using(crate::proofs::Choosing::places_counted))]
fn count_true(may: &[bool]) -> usize
    ensures { result ≡ length (true_places 0 may.now) }
{
    may.iter().filter(|b| **b).count()
}

// The place of this number among the true ones.
fn nth_true(may: &[bool], number: usize) -> usize
    requires { number < length (true_places 0 may.now) }
    ensures place { result ≡ nth_true may.now number }
    ensures may { slice_get may.now result ≡ Some true }
{
    let mut left = number;
    for (place, allowed) in may.iter().enumerate() {
        if *allowed {
            if left == 0 {
                return place;
            }
            left -= 1;
        }
    }
    unreachable!()
}

impl<'a> Chooser for Listed<'a> {
    #[tactic(auto, using(crate::proofs::Choosing::some_place))]
    fn pick(&mut self, may: &[bool], referenced: &mut [bool]) -> usize
        requires lengths { length referenced.old ≡ length may.now }
        requires some { Contains may.now true }
        ensures may { slice_get may.now result ≡ Some true }
        ensures marks { (k : ℕ) → slice_get referenced.new k ≡ Some true
            → slice_get referenced.old k ≡ Some true }
        ensures place { result ≡ chosen may.now (next_choice self.old) }
        ensures rest { self.new ≡ drop 1 self.old }
        ensures same_marks { referenced.new ≡ referenced.old }
    {
        let choice = self.next();
        let count = count_true(may);
        nth_true(may, choice as usize % count)
    }
}

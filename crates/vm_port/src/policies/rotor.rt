// Turns that alternate.
ghost use Rattle.std.specs.Prelude.{◌≡◌, ℕ, ◌-◌, ◌<◌, not, false, Some, None, if◌then◌else◌, IfSome};

use crate::Dispatcher;
use std::marker::Model;

/// A dispatcher that alternates: at its first turn and every second one from then on it names none,
/// and at the others the access that was issued last. It is seen as whether its next turn names
/// one.
#[derive(Drop)]
pub struct Rotor {
    is_even: bool,
}

impl Model for Rotor {
    ghost use Rattle.std.specs.Prelude.{Bool};

    ghost Value = { Bool };

    ghost view = { λ r. r.is_even };
}

impl Rotor {
    /// Before its first turn.
    pub fn new() -> Rotor
        ensures { result ≡ false }
    {
        Rotor { is_even: false }
    }
}

impl Dispatcher for Rotor {
    ghost turns = { λ _. None };

    fn turn(&mut self, outstanding: usize) -> Option<usize>
        requires { 0 < outstanding }
        ensures within { IfSome result (λ place. place < outstanding) }
        ensures turn { result ≡ (if self.old then Some (outstanding - 1) else None) }
        ensures next { self.new ≡ not self.old }
    {
        let is_even = self.is_even;
        self.is_even = !is_even;
        if is_even {
            return Some(outstanding - 1);
        }
        None
    }
}

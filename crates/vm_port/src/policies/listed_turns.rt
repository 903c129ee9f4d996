// Turns by a list.
ghost use Rattle.std.specs.Prelude.{◌≡◌, ℕ, ◌<◌, List, drop, Option, Some, IfSome};
ghost use Rattle.vm_ids.specs.Dispatching.{next_turn};

use crate::Dispatcher;
use std::marker::Model;

/// A dispatcher that does as a list says: each turn takes the next of the list, which names none or
/// a place among the accesses that wait, counted round. It names none once the list is used up.
pub struct ListedTurns<'a> {
    turns: &'a [Option<u32>],
}

impl<'a> Model for ListedTurns<'a> {
    ghost Value = { List (Option ℕ) };

    ghost view = { λ l. l.turns.now };
}

impl<'a> Drop for ListedTurns<'a> {
    fn drop(self) {
        let ListedTurns { turns: _ } = self;
    }
}

impl<'a> ListedTurns<'a> {
    /// By these turns.
    pub fn new(turns: &'a [Option<u32>]) -> ListedTurns<'a>
        ensures { result ≡ turns.now }
    {
        ListedTurns { turns }
    }
}

impl<'a> Dispatcher for ListedTurns<'a> {
    ghost turns = { λ l. Some l };

    fn turn(&mut self, outstanding: usize) -> Option<usize>
        requires { 0 < outstanding }
        ensures within { IfSome result (λ place. place < outstanding) }
        ensures turn { result ≡ next_turn self.old outstanding }
        ensures left { self.new ≡ drop 1 self.old }
    {
        let turns = self.turns;
        if turns.is_empty() {
            return None;
        }
        self.turns = &turns[1..];
        match turns[0] {
            Some(place) => Some(place as usize % outstanding),
            None => None,
        }
    }
}

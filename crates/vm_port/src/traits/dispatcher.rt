// Who chooses which access is delivered next.
ghost use Rattle.std.specs.Prelude.{◌≡◌, ℕ, ◌<◌, List, drop, Option, option_map, IfSome};
ghost use Rattle.vm_ids.specs.Dispatching.{next_turn};

/// An order of deliveries: it is asked which of the accesses that wait for a page is delivered
/// next. Every promise of the manager holds in whichever order.
pub trait Dispatcher {
    /// The turns that are left, where they are told.
    ghost turns: { Self → Option (List (Option ℕ)) };

    /// Among so many accesses that wait, at least one, the place of the next to be delivered,
    /// counted from 0 in order of issue. `None` where it names none at this turn. It can't fail.
    fn turn(&mut self, outstanding: usize) -> Option<usize>
        requires { 0 < outstanding }
        ensures within { IfSome result (λ place. place < outstanding) }
        ensures told { IfSome (turns self.old) (λ told. result ≡ next_turn told outstanding) }
        ensures left { turns self.new ≡ option_map (drop 1) (turns self.old) };
}

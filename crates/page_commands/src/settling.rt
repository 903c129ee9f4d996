// Working nodes settle, and the store follows.
ghost use Rattle.std.specs.Prelude.{◌≡◌, ◌≤◌, [], length};
ghost use Rattle.vm_ids.specs.Forest.Laws.Settling.{IsSettled};
ghost use Rattle.vm_ids.specs.Forest.Settling.{settle as rule_settle};
ghost use Rattle.vm_ids.specs.Forest.Shape.{IsBounded, IsConsistent};
ghost use Rattle.local_cache.specs.Own.{own_states};
ghost use Rattle.local_cache.specs.Reading.{forest_of};
ghost use Rattle.local_cache.specs.Sound.{IsSound};
ghost use Rattle.page_commands.specs.Readings.{GoesBy};
ghost use Rattle.page_commands.specs.Steps.{IsStoreTied, IsWorkingUnpinned, Releases};

use crate::steps::settle_some;
use local_cache::Caches;
use residency::Store;

// Settles until each working node has at least two children. Frames and slots of those that go fall
// free.
pub(crate) fn settle(store: &mut Store, caches: &mut Caches)
    requires tied { IsStoreTied store.old caches.old }
    requires sound { IsSound caches.old }
    requires consistent { IsConsistent (forest_of caches.old) }
    requires unpinned { IsWorkingUnpinned store.old caches.old }
    ensures rule { GoesBy (λ P put f. rule_settle f) store.old caches.old store.new caches.new }
    ensures kept { Releases [] store.old caches.old store.new caches.new }
    ensures settled { IsSettled (forest_of caches.new) }
    ensures consistent { IsConsistent (forest_of caches.new) }
    ensures bounded { IsBounded (forest_of caches.new) }
    ensures counters { (caches.new.made ≡ caches.old.made)
        × (caches.new.copies ≡ caches.old.copies) }
    ensures room { caches.old.room.nodes ≤ caches.new.room.nodes }
    ensures fewer { length (own_states caches.new) ≤ length (own_states caches.old) }
{
    while settle_some(store, caches) {}
}

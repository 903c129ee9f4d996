// The pages of a move, and the store follows.
ghost use Rattle.std.specs.Prelude.{◌≡◌, ◌+◌, ◌*◌, ◌<◌, ◌≤◌, ◌^◌, ◌⊎◌, false, []};
ghost use Rattle.vm_ids.specs.Forest.Commands.{firsts, move_, move_pages as rule_move_pages, seconds, span_pairs};
ghost use Rattle.vm_ids.specs.Forest.NameLists.{◌∈◌};
ghost use Rattle.vm_ids.specs.Forest.Laws.Commands.{CanCopy};
ghost use Rattle.vm_ids.specs.Forest.Shape.{IsConsistent};
ghost use Rattle.local_cache.specs.Reading.{forest_of};
ghost use Rattle.local_cache.specs.Sound.{IsSound};
ghost use Rattle.tree_merge.specs.Copying.{pairs_left, span_pairs_after};
ghost use Rattle.page_commands.specs.Commands.{CanReplace, CanRetire, CanTransfer, Grows, HasRoom, KeepsPages};
ghost use Rattle.page_commands.specs.Homes.{AreUnclean, is_named};
ghost use Rattle.page_commands.specs.Readings.{GoesBy};
ghost use Rattle.page_commands.specs.Steps.{AreUnpinned, IsStoreTied, Kept, Releases};
ghost use Rattle.page_commands.specs.Translating.{Leaves, Replaces, where_mapped};

use crate::following::follow;
use crate::forgetting::forget_named;
use crate::settling::settle;
use crate::translations::drop_seen_where_mapped;
use local_cache::Caches;
use move_pages::move_step;
use residency::Store;
use vm_ids::{Extent, Span};

// Moves the pages of a span that come next: as many as are alike at once, or else one, and what
// became of its destination's old node is followed. How many.
fn move_next(store: &mut Store, caches: &mut Caches, span: Span, done: u32) -> u32
    requires tied { IsStoreTied store.old caches.old }
    requires sound { IsSound caches.old }
    requires consistent { IsConsistent (forest_of caches.old) }
    requires can { CanCopy (forest_of caches.old) (pairs_left span done) }
    requires within { (span.from_page.0 + span.pages < 2 ^ 32)
        × (span.to_page.0 + span.pages < 2 ^ 32) }
    requires done { done < span.pages }
    requires temporary { is_named caches.old span.from ≡ false }
    requires sources { AreUnpinned store.old caches.old (seconds (span_pairs span)) }
    requires unpinned { AreUnpinned store.old caches.old (firsts (span_pairs span)) }
    requires unclean { AreUnclean caches.old (firsts (span_pairs span)) }
    requires room { 1 ≤ caches.old.room.nodes }
    requires made { caches.old.made < 3 * 2 ^ 61 }
    ensures some { 0 < result }
    ensures few { done + result ≤ span.pages }
    ensures rule { GoesBy (λ P put f. rule_move_pages put.zeros
        (span_pairs_after span done result) f) store.old caches.old store.new caches.new }
    ensures kept { Releases [] store.old caches.old store.new caches.new }
    ensures grows { Grows result caches.old caches.new }
{
    let step = move_step(caches, span, done);
    follow(store, caches, step.released);
    step.pages
}

// Each page of the source is moved to the destination, in rising order.
fn move_each(store: &mut Store, caches: &mut Caches, span: Span)
    requires temporary { is_named caches.old span.from ≡ false }
    requires sources { AreUnpinned store.old caches.old (seconds (span_pairs span)) }
    requires can { CanCopy (forest_of caches.old) (span_pairs span) }
    requires within { (span.from_page.0 + span.pages < 2 ^ 32)
        × (span.to_page.0 + span.pages < 2 ^ 32) }
    requires retire { CanRetire span.pages (firsts (span_pairs span)) store.old caches.old }
    requires unclean { AreUnclean caches.old (firsts (span_pairs span)) }
    requires room { span.pages ≤ caches.old.room.nodes }
    ensures rule { GoesBy (λ P put f. rule_move_pages put.zeros (span_pairs span) f)
        store.old caches.old store.new caches.new }
    ensures kept { Releases [] store.old caches.old store.new caches.new }
    ensures grows { Grows span.pages caches.old caches.new }
{
    let mut done = 0;
    while done < span.pages {
        done += move_next(store, caches, span, done);
    }
}

// The move, once no translation leads to a page of either range.
fn move_and_settle(store: &mut Store, caches: &mut Caches, span: Span)
    requires temporary { is_named caches.old span.from ≡ false }
    requires sources { AreUnpinned store.old caches.old (seconds (span_pairs span)) }
    requires transfer { CanTransfer span caches.old }
    requires ready { CanReplace span.pages span.to (firsts (span_pairs span))
        store.old caches.old }
    requires room { HasRoom span.pages caches.old }
    ensures rule { GoesBy (λ P put f. move_ false put.zeros (span_pairs span) f)
        store.old caches.old store.new caches.new }
    ensures kept { Releases (firsts (span_pairs span)) store.old caches.old store.new caches.new }
    ensures pages { KeepsPages span.pages store.old caches.old store.new caches.new }
    ensures translations { Replaces
        (λ x. (x ∈ firsts (span_pairs span)) ⊎ (x ∈ seconds (span_pairs span))) (λ x. ⊥)
        caches.old store.old caches.new store.new }
{
    let filled = Extent {
        cache: span.to,
        first: span.to_page,
        pages: span.pages,
    };
    forget_named(store, caches, filled);
    move_each(store, caches, span);
    settle(store, caches);
}

/// Each page of the source, none of which is pinned, becomes that of the destination, none of which
/// is pinned, with its frame or its slot and all that it has, and is a page of zeros then. No page
/// is copied, and none is brought in. The source is temporary. Where the destination is named by a
/// segment, each of its pages was granted, and its heirs have their saves: what it has is forgotten
/// first. Where a region may map the source, or the destination, no translation leads to where a
/// page of it was seen; where none does, there is none of its pages.
pub fn move_pages(
    store: &mut Store,
    caches: &mut Caches,
    span: Span,
    from_mapped: bool,
    to_mapped: bool,
)
    requires temporary { is_named caches.old span.from ≡ false }
    requires sources { AreUnpinned store.old caches.old (seconds (span_pairs span)) }
    requires transfer { CanTransfer span caches.old }
    requires ready { CanReplace span.pages span.to (firsts (span_pairs span))
        store.old caches.old }
    requires room { HasRoom span.pages caches.old }
    ensures rule { GoesBy (λ P put f. move_ false put.zeros (span_pairs span) f)
        store.old caches.old store.new caches.new }
    ensures kept { Kept (firsts (span_pairs span)) store.old caches.old store.new caches.new }
    ensures pages { KeepsPages span.pages store.old caches.old store.new caches.new }
    ensures translations { Leaves
        (λ x. (x ∈ firsts (span_pairs span)) ⊎ (x ∈ seconds (span_pairs span)))
        (λ x. (x ∈ where_mapped to_mapped (firsts (span_pairs span)))
        ⊎ (x ∈ where_mapped from_mapped (seconds (span_pairs span)))) (λ x. ⊥)
        caches.old store.old caches.new store.new }
{
    let filled = Extent {
        cache: span.to,
        first: span.to_page,
        pages: span.pages,
    };
    let taken = Extent {
        cache: span.from,
        first: span.from_page,
        pages: span.pages,
    };
    drop_seen_where_mapped(store, caches, to_mapped, filled);
    drop_seen_where_mapped(store, caches, from_mapped, taken);
    move_and_settle(store, caches, span);
}

// The pages of a copy, and the store follows.
ghost use Rattle.std.specs.Prelude.{◌+◌, ◌-◌, ◌*◌, ◌<◌, ◌≤◌, ◌^◌, false, [], leb};
ghost use Rattle.vm_ids.specs.Forest.Commands.{copy as rule_copy, copy_pages as rule_copy_pages, firsts, seconds, small_copy, span_pairs};
ghost use Rattle.vm_ids.specs.Forest.NameLists.{◌∈◌};
ghost use Rattle.vm_ids.specs.Forest.Laws.Commands.{CanCopy};
ghost use Rattle.vm_ids.specs.Forest.Shape.{IsConsistent};
ghost use Rattle.local_cache.specs.Reading.{forest_of};
ghost use Rattle.local_cache.specs.Sound.{IsSound};
ghost use Rattle.tree_merge.specs.Copying.{pairs_left, span_pairs_after};
ghost use Rattle.page_commands.specs.Commands.{CanReplace, CanRetire, CanTransfer, Grows, HasRoom, KeepsPages};
ghost use Rattle.page_commands.specs.Homes.{AreUnclean};
ghost use Rattle.page_commands.specs.Readings.{GoesBy};
ghost use Rattle.page_commands.specs.Steps.{AreUnpinned, IsStoreTied, Kept, Releases};
ghost use Rattle.page_commands.specs.Translating.{Leaves, Replaces, where_mapped};

use crate::following::follow;
use crate::forgetting::forget_named;
use crate::settling::settle;
use crate::translations::{drop_seen_where_mapped, narrow_own};
use local_cache::Caches;
use residency::Store;
use tree_merge::copy_step;
use vm_ids::{Extent, Span};

// Copies the pages of a span that come next: as many as are alike at once, or else one. How many.
fn copy_next(store: &mut Store, caches: &mut Caches, span: Span, done: u32) -> u32
    requires tied { IsStoreTied store.old caches.old }
    requires sound { IsSound caches.old }
    requires consistent { IsConsistent (forest_of caches.old) }
    requires can { CanCopy (forest_of caches.old) (pairs_left span done) }
    requires within { (span.from_page.0 + span.pages < 2 ^ 32)
        × (span.to_page.0 + span.pages < 2 ^ 32) }
    requires done { done < span.pages }
    requires unpinned { AreUnpinned store.old caches.old (firsts (span_pairs span)) }
    requires unclean { AreUnclean caches.old (firsts (span_pairs span)) }
    requires room { HasRoom (2 * (span.pages - done)) caches.old }
    requires made { caches.old.made + 2 * (span.pages - done) < 3 * 2 ^ 61 }
    ensures some { 0 < result }
    ensures few { done + result ≤ span.pages }
    ensures rule { GoesBy (λ P put f. rule_copy_pages (leb span.pages small_copy)
        (span_pairs_after span done result) f) store.old caches.old store.new caches.new }
    ensures kept { Releases [] store.old caches.old store.new caches.new }
    ensures grows { Grows (2 * result) caches.old caches.new }
{
    let step = copy_step(caches, span, done);
    follow(store, caches, step.released);
    step.pages
}

// Each page of the destination becomes a copy of its source, in rising order.
fn copy_each(store: &mut Store, caches: &mut Caches, span: Span)
    requires can { CanCopy (forest_of caches.old) (span_pairs span) }
    requires within { (span.from_page.0 + span.pages < 2 ^ 32)
        × (span.to_page.0 + span.pages < 2 ^ 32) }
    requires retire { CanRetire (2 * span.pages) (firsts (span_pairs span))
        store.old caches.old }
    requires unclean { AreUnclean caches.old (firsts (span_pairs span)) }
    requires room { HasRoom (2 * span.pages) caches.old }
    ensures rule { GoesBy (λ P put f. rule_copy_pages (leb span.pages small_copy)
        (span_pairs span) f) store.old caches.old store.new caches.new }
    ensures kept { Releases [] store.old caches.old store.new caches.new }
    ensures grows { Grows (2 * span.pages) caches.old caches.new }
{
    let mut done = 0;
    while done < span.pages {
        done += copy_next(store, caches, span, done);
    }
}

// The copy, once no translation leads to a page that it replaces, and none for writing to one that
// it copies.
fn copy_and_settle(store: &mut Store, caches: &mut Caches, span: Span)
    requires transfer { CanTransfer span caches.old }
    requires ready { CanReplace (2 * span.pages) span.to (firsts (span_pairs span))
        store.old caches.old }
    requires room { HasRoom (2 * span.pages) caches.old }
    ensures rule { GoesBy (λ P put f. rule_copy false (span_pairs span) f)
        store.old caches.old store.new caches.new }
    ensures kept { Releases (firsts (span_pairs span)) store.old caches.old store.new caches.new }
    ensures pages { KeepsPages (2 * span.pages) store.old caches.old store.new caches.new }
    ensures translations { Replaces (λ x. x ∈ firsts (span_pairs span))
        (λ x. x ∈ seconds (span_pairs span)) caches.old store.old caches.new store.new }
{
    let filled = Extent {
        cache: span.to,
        first: span.to_page,
        pages: span.pages,
    };
    forget_named(store, caches, filled);
    copy_each(store, caches, span);
    settle(store, caches);
}

/// Each page of the destination, none of which is pinned, becomes a copy of its source: by stub
/// links where they are few, and else by tree links. No page is copied, and none is brought in.
/// Where the destination is named by a segment, each of its pages was granted, and its heirs have
/// their saves: what it has is forgotten first. Where it is `mapped`, that is where a region may
/// map the destination, no translation leads to where a page of it was seen; where none does, there
/// is none of its pages. None for writing leads to where a source that was its node's alone is.
pub fn copy_pages(store: &mut Store, caches: &mut Caches, span: Span, mapped: bool)
    requires transfer { CanTransfer span caches.old }
    requires ready { CanReplace (2 * span.pages) span.to (firsts (span_pairs span))
        store.old caches.old }
    requires room { HasRoom (2 * span.pages) caches.old }
    ensures rule { GoesBy (λ P put f. rule_copy false (span_pairs span) f)
        store.old caches.old store.new caches.new }
    ensures kept { Kept (firsts (span_pairs span)) store.old caches.old store.new caches.new }
    ensures pages { KeepsPages (2 * span.pages) store.old caches.old store.new caches.new }
    ensures translations { Leaves (λ x. x ∈ firsts (span_pairs span))
        (λ x. x ∈ where_mapped mapped (firsts (span_pairs span)))
        (λ x. x ∈ seconds (span_pairs span)) caches.old store.old caches.new store.new }
{
    let filled = Extent {
        cache: span.to,
        first: span.to_page,
        pages: span.pages,
    };
    let read = Extent {
        cache: span.from,
        first: span.from_page,
        pages: span.pages,
    };
    drop_seen_where_mapped(store, caches, mapped, filled);
    narrow_own(store, caches, read);
    copy_and_settle(store, caches, span);
}

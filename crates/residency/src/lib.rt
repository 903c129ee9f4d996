//! Residency: which pages are in frames, and the calls that bring pages in and evict them.
//!
//! A store has the page frames, the swap slots, the map from page nodes to frames, the page tables,
//! and the marks that a policy of eviction looks at. Whatever it moves, every node's own page stays
//! what it is: the page in the node's frame, in its swap slot or on its segment, or a page of
//! zeros. A frame that loses its node loses its translations too, and no other translation goes. A
//! page that has a home on a segment is pulled from there and evicted to there, with a push only
//! where it was changed. A frame that is pinned is never evicted. A fault of the mapper is answered
//! only where the mapper's count of faults rose, and after it every page is where it was or was
//! evicted.
//!
//! A store is seen as the record of its parts, each by its own model; of the marks the calls that
//! move pages say only how many there are, so that no promise of theirs rests on the policy.
//! `IsStoreRight` of `specs` says how the parts, the caches and the mapper belong together, `Still`
//! what each call keeps, `OthersStay` how little an eviction changes (one page leaves its frame),
//! `TellsOn` what becomes of the segments, and `TablesAfter` of the translations. `Between` says a
//! relation of the moments before and after a call, `Across` one that speaks of the mapper's counts
//! too, as `MakesFree` does of a frame that is made free, and `Fills` of a page that comes to it.
//! The crate stands on `frame_pool`, `slot_pool`, `global_map`, `page_tables`, `local_cache` and
//! the traits of the outside; the paths of faults, the copies and moves with frames, and the
//! manager stand on it.
#![tactic(auto)]

mod marks;
mod miss;
mod store;

pub use miss::Miss;
pub use store::Store;

// How a mapping is refused.
ghost use Rattle.std.specs.Prelude.{◌≡◌, ◌+◌, ◌*◌, ◌^◌, ◌≤◌, nat_lt};
ghost use Rattle.vm_model.specs.Machine.{numbered};
ghost use Rattle.contexts.specs.Maps.{map_refusal};

use crate::Contexts;
use vm_ids::{ADDRESS_END, ActorId, Mapping, Refusal};
use vm_model::MOST_MADE;

// Whether so many pages at this address pass the end of the addresses.
fn passes_addresses(page_bytes: u64, address: u64, pages: u32) -> bool
    requires { page_bytes ≤ 2 ^ 16 }
    ensures { result ≡ nat_lt (2 ^ 48) (address + page_bytes * pages) }
{
    address > ADDRESS_END || page_bytes * pages as u64 > ADDRESS_END - address
}

/// Whether so many pages from this one on pass the end of a cache with `count` pages.
pub fn passes_end(count: u32, first: u32, pages: u32) -> bool
    ensures { result ≡ nat_lt count (first + pages) }
{
    first as u64 + pages as u64 > count as u64
}

impl Contexts {
    /// How it is refused to map pages of a cache with `count` pages into an actor. `NoActor` where
    /// the actor isn't alive, else `NoCache` where `count` is `None`, else `Unaligned` where the
    /// address isn't that of a page, else `BadAddress` where the pages pass the end of the
    /// addresses, 2^48, else `OutOfCache` where they pass the end of the cache, else `Overlap`
    /// where a region of the actor has one of their addresses, else `TooMany` where 65,535 regions
    /// were made.
    pub fn map_refusal(
        &self,
        actor: ActorId,
        mapping: &Mapping,
        count: Option<u32>,
    ) -> Option<Refusal>
        ensures { result
            ≡ map_refusal self.now (numbered self.now.actors actor.0) count mapping.now }
    {
        let Some(regions) = self.regions(actor) else {
            return Some(Refusal::NoActor);
        };
        let Some(count) = count else {
            return Some(Refusal::NoCache);
        };
        let page_bytes = self.page_bytes() as u64;
        let (address, pages) = (mapping.address, mapping.extent.pages);
        if address % page_bytes != 0 {
            return Some(Refusal::Unaligned);
        }
        if passes_addresses(page_bytes, address, pages) {
            return Some(Refusal::BadAddress);
        }
        if passes_end(count, mapping.extent.first.0, pages) {
            return Some(Refusal::OutOfCache);
        }
        if !regions.fits(address, pages) {
            return Some(Refusal::Overlap);
        }
        if self.regions_made() >= MOST_MADE {
            return Some(Refusal::TooMany);
        }
        None
    }
}

// What is told of regions; chains and counts, which are those of the plain forest.
ghost use Rattle.std.specs.Prelude.{◌≡◌, [], ◌∷◌, None, Ok, IfOk};
ghost use Rattle.vm_model.specs.Answering.{answer_by};
ghost use Rattle.vm_model.specs.Outcome.{PlainOutcome};
ghost use Rattle.vm_model.specs.Regions.{status_in};
ghost use Rattle.vm_model.specs.Seen.{machine_seen, region_seen, AreTablesSound};

use crate::located::{Located, locate};
use crate::place::{actor_at, cache_at, passes_end, region_holding};
use crate::tables::Tables;
use std::alloc::{AllocError, Global};
use vm_ids::{
    ActorId, CacheId, ChainItem, ChainList, Command, Counts, Extent, Mapping, NodeName, PageNo,
    Prot, Refusal, RegionId, RegionStatus, Reply, Trouble,
};

// What there is to tell of a region.
fn status_at(located: &Located) -> RegionStatus
    ensures { result ≡ status_in located.now.actor.0 (region_seen located.now.region) }
{
    let region = located.region;
    let extent = Extent {
        cache: region.cache,
        first: PageNo(region.offset),
        pages: region.pages,
    };
    RegionStatus {
        actor: located.actor,
        mapping: Mapping {
            extent,
            address: region.start,
            prot: Prot {
                write: region.may_write,
            },
        },
        locked: region.locked,
    }
}

#[tactic(auto, unfolding(crate::specs::Answering::status_of, crate::specs::Answering::with_some))]
pub(crate) fn status(tables: &Tables, region: RegionId) -> Result<RegionStatus, Trouble>
    requires { AreTablesSound tables.now }
    ensures { PlainOutcome (machine_seen tables.now) (Command.Status region)
        (answer_by Reply.Status result) (machine_seen tables.now) }
{
    match locate(tables, region) {
        Some(located) => Ok(status_at(&located)),
        None => Err(Trouble::Refused(Refusal::NoRegion)),
    }
}

#[tactic(auto, unfolding(crate::specs::Answering::find_of, crate::specs::Answering::with_some))]
pub(crate) fn find(tables: &Tables, actor: ActorId, address: u64) -> Result<RegionId, Trouble>
    requires { AreTablesSound tables.now }
    ensures { PlainOutcome (machine_seen tables.now) (Command.Find actor address)
        (answer_by Reply.Region result) (machine_seen tables.now) }
{
    let Some(found) = actor_at(&tables.actors, actor.0) else {
        return Err(Trouble::Refused(Refusal::NoActor));
    };
    match region_holding(&found.regions, tables.page_bytes as u64, address) {
        Some(region) => Ok(region.number),
        None => Err(Trouble::Refused(Refusal::BadAddress)),
    }
}

// The node of a page that owns itself, as a chain.
fn own_chain(alloc: Global, cache: CacheId, page: PageNo) -> Result<ChainList, AllocError>
    ensures { IfOk result
        (λ chain. chain ≡ record { name = NodeName.Live cache page; children = 0 } ∷ []) }
{
    let mut items = Vec::with_capacity(alloc, 1)?;
    items.push(ChainItem {
        name: NodeName::Live(cache, page),
        children: 0,
    })?;
    Ok(ChainList::new(items))
}

#[tactic(auto, unfolding(crate::specs::Answering::chain_answer, crate::specs::Answering::with_some, crate::specs::Answering::unless))]
pub(crate) fn chain(tables: &Tables, cache: CacheId, page: PageNo) -> Result<ChainList, Trouble>
    requires { AreTablesSound tables.now }
    ensures { PlainOutcome (machine_seen tables.now) (Command.Chain cache page)
        (answer_by Reply.Chain result) (machine_seen tables.now) }
{
    let Some(found) = cache_at(&tables.caches, cache.0) else {
        return Err(Trouble::Refused(Refusal::NoCache));
    };
    if passes_end(found, page.0, 1) {
        return Err(Trouble::Refused(Refusal::OutOfCache));
    }
    Ok(own_chain(tables.alloc, cache, page)?)
}

pub(crate) fn stat(tables: &Tables) -> Counts
    requires { AreTablesSound tables.now }
    ensures { PlainOutcome (machine_seen tables.now) Command.Stat (Ok (Reply.Stat result))
        (machine_seen tables.now) }
{
    Counts {
        live: tables.live,
        working: 0,
        copies: 0,
    }
}

// What memory that is there suffices for.
ghost use Rattle.std.specs.Prelude.{◌≤◌, ◌^◌};
ghost use Rattle.vm_model.specs.declared.limits.TheConstants.{LIVE_PAGES};
ghost use Rattle.vm_model.specs.Machine.{live_pages};
ghost use Rattle.gmi_calls.specs.Calling.{Fits};

use crate::commands::{PAGE, PAGES};
use gmi_calls::{Gmi, answer};
use pvm_core::Pvm;
use std::process::Abort;
use std::test::Fail;
use vm_ids::{ActorId, CacheId, Command, Extent, Mapping, PageNo, Prot, RegionId, Span};
use vm_port::{Chooser, Clock, Mapper, MemoryMapper};

// A large cache has so many pages.
const MANY: u32 = 300_000;

// Each call that takes memory, where there is memory.
fn succeeds<G: Gmi<M, C>, M: Mapper, C: Chooser>(
    rt: &impl Abort,
    gmi: &mut G,
    mapper: &mut M,
    chooser: &mut C,
) -> Result<(), Fail>
    requires valid { G.valid gmi.old (M.held mapper.old) }
    requires made { G.made gmi.old ≤ 2 ^ 61 }
    requires fits { Fits (M.page_bytes mapper.old) (G.machine gmi.old (M.held mapper.old)) }
    requires live { live_pages (G.machine gmi.old (M.held mapper.old)) ≤ LIVE_PAGES }
{
    let span = Span {
        from: CacheId(1),
        from_page: PageNo(0),
        to: CacheId(2),
        to_page: PageNo(0),
        pages: PAGES,
    };
    let extent = Extent {
        cache: CacheId(1),
        first: PageNo(0),
        pages: PAGES,
    };
    let mapping = Mapping {
        extent,
        address: 0,
        prot: Prot { write: true },
    };
    let map = Command::Map(ActorId(1), mapping);
    let split = Command::Split(RegionId(1), 1);
    let chain = Command::Chain(CacheId(2), PageNo(0));
    assert!(rt; answer(gmi, &Command::MakeActor, mapper, chooser).is_ok());
    assert!(rt; answer(gmi, &Command::MakeTemp(PAGES), mapper, chooser).is_ok());
    assert!(rt; answer(gmi, &Command::MakeTemp(PAGES), mapper, chooser).is_ok());
    assert!(rt; answer(gmi, &map, mapper, chooser).is_ok());
    assert!(rt; answer(gmi, &split, mapper, chooser).is_ok());
    assert!(rt; answer(gmi, &Command::Copy(span), mapper, chooser).is_ok());
    assert!(rt; answer(gmi, &Command::Move(span), mapper, chooser).is_ok());
    assert!(rt; answer(gmi, &chain, mapper, chooser).is_ok());
    Ok(())
}

#[test]
fn memory_is_there(rt: HostRuntime) -> Result<(), Fail> {
    let mut gmi = Pvm::new(rt.alloc(), 3, PAGE)?;
    let mut mapper = MemoryMapper::new(rt.alloc(), &[], &[], 0, &[], PAGE)?;
    succeeds(&rt, &mut gmi, &mut mapper, &mut Clock::new())
}

// Three caches, of which the first is copied whole to each of the others.
fn copies_whole<G: Gmi<M, C>, M: Mapper, C: Chooser>(
    rt: &impl Abort,
    gmi: &mut G,
    mapper: &mut M,
    chooser: &mut C,
) -> Result<(), Fail>
    requires valid { G.valid gmi.old (M.held mapper.old) }
    requires made { G.made gmi.old ≤ 2 ^ 61 }
    requires fits { Fits (M.page_bytes mapper.old) (G.machine gmi.old (M.held mapper.old)) }
    requires live { live_pages (G.machine gmi.old (M.held mapper.old)) ≤ LIVE_PAGES }
{
    let second = Span {
        from: CacheId(1),
        from_page: PageNo(0),
        to: CacheId(2),
        to_page: PageNo(0),
        pages: MANY,
    };
    let third = Span {
        to: CacheId(3),
        ..second
    };
    assert!(rt; answer(gmi, &Command::MakeTemp(MANY), mapper, chooser).is_ok());
    assert!(rt; answer(gmi, &Command::MakeTemp(MANY), mapper, chooser).is_ok());
    assert!(rt; answer(gmi, &Command::MakeTemp(MANY), mapper, chooser).is_ok());
    assert!(rt; answer(gmi, &Command::Copy(second), mapper, chooser).is_ok());
    assert!(rt; answer(gmi, &Command::Copy(third), mapper, chooser).is_ok());
    Ok(())
}

// The nodes of the three caches, and the working nodes between, which are as many as a cache has
// pages.
#[test]
fn whole_copies_stand_in_four_runs(rt: HostRuntime) -> Result<(), Fail> {
    let mut gmi = Pvm::new(rt.alloc(), 3, PAGE)?;
    let mut mapper = MemoryMapper::new(rt.alloc(), &[], &[], 0, &[], PAGE)?;
    copies_whole(&rt, &mut gmi, &mut mapper, &mut Clock::new())?;
    assert_eq!(&rt; gmi.runs(), 4);
    Ok(())
}

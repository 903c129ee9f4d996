// The manager.
ghost use Rattle.std.specs.Prelude.{◌≡◌, ◌≤◌, ◌^◌, Option, IfOk};
ghost use Rattle.vm_ids.specs.Held.{Held};
ghost use Rattle.vm_model.specs.Machine.{start};
ghost use Rattle.flat_mm.specs.Manager.{IsValid, machine_in};

use crate::store::PageStore;
use contexts::Contexts;
use std::alloc::Global;
use std::marker::Model;
use vm_ids::NoMemory;

/// The caches of a machine, each page in a page frame of its own from its making, and the actors
/// with their regions.
pub struct FlatMm {
    pub(crate) store: PageStore,
    pub(crate) contexts: Contexts,
    // How many actors were made.
    pub(crate) actors: u32,
}

impl Model for FlatMm {
    ghost use Rattle.flat_mm.specs.Manager.{IsManagerSound, Manager};

    ghost Value = { Manager };

    ghost view = { λ p. record { store = p.store; actors = p.contexts } };

    ghost invariant = { λ p. IsManagerSound p.store p.contexts p.actors };
}

impl Drop for FlatMm {
    // One call, so that whoever lets a manager go needs to know of none of its parts.
    fn drop(self) {
        let FlatMm {
            store: _,
            contexts: _,
            actors: _,
        } = self;
    }
}

impl FlatMm {
    /// A manager without caches and actors, of so many frames, at least three and all free, whose
    /// pages have `page` bytes.
    pub fn new(alloc: Global, frames: u32, page: u32) -> Result<FlatMm, NoMemory>
        requires few { 3 ≤ frames }
        requires frames { frames ≤ 2 ^ 16 }
        requires some { 1 ≤ page }
        requires page { page ≤ 2 ^ 16 }
        ensures machine { IfOk result (λ p. machine_in p ≡ start frames page) }
        ensures valid { IfOk result (λ p. (told : Option Held) → IsValid p told) }
    {
        Ok(FlatMm {
            store: PageStore::new(alloc, frames, page)?,
            contexts: Contexts::new(alloc, page),
            actors: 0,
        })
    }
}

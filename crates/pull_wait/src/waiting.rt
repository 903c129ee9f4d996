// The list of parked accesses.
ghost use Rattle.std.specs.Prelude.{◌≡◌, ◌<◌, ◌≤◌, [], ◌∷◌, ◌++◌, None, Some, length, remove, slice_get, vec_capacity, vec_len, IfOk};
ghost use Rattle.std.specs.Option.{option_copied};
ghost use Rattle.pull_wait.specs.Waiting.{IsOneOfEach, place_of};

use std::alloc::Global;
use std::marker::Model;
use vm_ids::{ActorId, NoMemory, Parked};

// So many accesses are parked at most: one of each actor that is alive.
const MOST: usize = 256;

/// The accesses that wait for their page, in order of issue: at most one of each actor, and at most
/// 256. It is seen as their list.
#[derive(Drop)]
pub struct PullWait {
    parked: Vec<Parked>,
}

impl Model for PullWait {
    ghost use Rattle.std.specs.Prelude.{List};
    ghost use Rattle.vm_ids.specs.declared.access.Parked.{Parked};

    ghost Value = { List Parked };

    ghost use Rattle.pull_wait.specs.Layout.{IsSound};

    ghost view = { λ w. w.parked.items };

    ghost invariant = { IsSound };
}

// The place of the access of an actor.
fn place_of(parked: &[Parked], actor: ActorId) -> Option<usize>
    ensures { result ≡ place_of parked.now actor.0 }
{
    parked.iter().position(|p| p.actor.0 == actor.0)
}

// One more behind the others, for which there is room.
fn push_parked(list: &mut Vec<Parked>, parked: Parked)
    requires { vec_len list.old < vec_capacity list.old }
    ensures items { list.new.items ≡ list.old.items ++ parked ∷ [] }
    ensures capacity { vec_capacity list.old ≤ vec_capacity list.new }
{
    match list.push(parked) {
        Ok(()) => {}
        Err(_) => unreachable!(),
    }
}

impl PullWait {
    /// An empty list, with the memory for 256 accesses.
    pub fn new(alloc: Global) -> Result<PullWait, NoMemory>
        ensures { IfOk result (λ waiting. waiting ≡ []) }
    {
        let parked = Vec::with_capacity(alloc, MOST)?;
        Ok(PullWait { parked })
    }

    /// Parks an access behind the others. It takes no memory.
    pub fn park(&mut self, parked: Parked)
        requires few { length self.old < 256 }
        requires apart { place_of self.old parked.actor.0 ≡ None }
        ensures { self.new ≡ self.old ++ parked ∷ [] }
    {
        push_parked(&mut self.parked, parked);
    }

    /// How many accesses are parked, at most 256, each of another actor.
    pub fn len(&self) -> u32
        ensures count { result ≡ length self.now }
        ensures most { length self.now ≤ 256 }
        ensures apart { IsOneOfEach self.now }
    {
        self.parked.len() as u32
    }

    /// The parked access at a place, counted from 0 in order of issue. `None` exactly where so many
    /// aren't parked.
    pub fn get(&self, place: u32) -> Option<&Parked>
        ensures { option_copied result ≡ slice_get self.now place }
    {
        self.parked.get(place as usize)
    }

    /// The place of an actor's parked access. `None` exactly where none of the actor is parked.
    pub fn of_actor(&self, actor: ActorId) -> Option<u32>
        ensures { result ≡ place_of self.now actor.0 }
    {
        match place_of(&self.parked, actor) {
            Some(place) => Some(place as u32),
            None => None,
        }
    }

    /// Takes a parked access out. The others stay parked, in their order.
    pub fn take(&mut self, place: u32) -> Parked
        requires { place < length self.old }
        ensures taken { slice_get self.old place ≡ Some result }
        ensures left { self.new ≡ remove self.old place }
    {
        self.parked.remove(place as usize)
    }
}

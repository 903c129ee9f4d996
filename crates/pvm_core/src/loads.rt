// The parts of a load: the page is found by its translation, or else looked for.
ghost use Rattle.std.specs.Prelude.{◌≡◌, ◌≢◌, ℕ, ◌≤◌, List, Option, length, false, Ok, Err, IfErr, IfNone, IfOk, IfSome, IsOk, OnErr, OnOk, true};
ghost use Rattle.vm_ids.specs.Counting.{MapperCounts, RoseBy};
ghost use Rattle.vm_ids.specs.Held.{Held};
ghost use Rattle.vm_model.specs.Answering.{answer_by};
ghost use Rattle.vm_model.specs.Machine.{numbered as has_number};
ghost use Rattle.vm_model.specs.Place.{place_of_actor};
ghost use Rattle.regions.specs.AddressSpace.{place_told};
ghost use Rattle.vm_model.specs.Run.{IsUnrefused};
ghost use Rattle.local_cache.specs.Arena.{HasNode};
ghost use Rattle.local_cache.specs.Own.{own_of};
ghost use Rattle.fault_path.specs.Faults as faults;
ghost use Rattle.gmi_calls.specs.Calling.{CallDone, Fits, MapperCall};
ghost use Rattle.gmi_calls.specs.Parking.{AccessCall, IsDelivered, NoMoreReady, NoPull, StillAdmits, Waits};
ghost use Rattle.pvm_core.specs.Access as access;
ghost use Rattle.pvm_core.specs.Access.{Admits, AreNodesOf, IsAtHand, IsLoaded, IsMissAt, is_ready};
ghost use Rattle.pvm_core.specs.Keeping.{SameButSeen};
ghost use Rattle.pvm_core.specs.Manager.{IsValid, machine_of, meaning, state_at};

use crate::Pvm;
use crate::nodes::{has_own_at_hand, has_page_at_hand, node_of};
use crate::pieces::{fault_of, part_of};
use crate::translations::{byte_at, remember_found, translated};
use fault_path::read_owner;
use history_tree::owner_of;
use regions::Place;
use vm_ids::{ActorId, Command, NodeId, Piece, Refusal, Reply, Trouble};
use vm_port::{Chooser, Mapper};

// The node of a page, and the node whose own page it reads.
#[derive(Clone, Copy)]
pub(crate) struct NodesAt {
    pub(crate) node: NodeId,
    pub(crate) owner: NodeId,
}

impl Pvm {
    // A load whose page a translation leads to. `None` where none does.
    #[inline(always)]
    pub(crate) fn load_seen(&mut self, actor: ActorId, address: u64, bytes: u8) -> Option<Piece>
        requires some { 1 ≤ bytes }
        requires few { bytes ≤ 64 }
        requires valid { (h : Option Held) × IsValid self.old h }
        ensures unseen { IfNone result (self.new ≡ self.old) }
        ensures same { SameButSeen self.old self.new }
        ensures call { IfSome result (λ piece. CallDone meaning self.old
            (Command.Load actor address bytes) (Ok (Reply.Bytes piece)) self.new) }
        ensures length { IfSome result (λ piece. length piece ≡ bytes) }
        ensures ready { IfSome result (λ _. is_ready self.old actor.0 address ≡ true) }
        ensures loaded { IfSome result (λ piece. (counts : MapperCounts)
            (given : Option (List ℕ)) → IsLoaded counts counts given
            self.old self.new actor.0 address bytes piece) }
    {
        if let Some(seen) = translated(&self.store, &self.contexts, actor, address, bytes) {
            let byte = byte_at(&self.contexts, address);
            self.store.touch(seen.frame);
            return Some(part_of(&self.store, Some(seen.frame), byte, bytes));
        }
        None
    }

    // The place of an access. Refused as `NoActor`, `Crosses` or `BadAddress`, in this order.
    pub(crate) fn locate(&self, actor: ActorId, address: u64, bytes: u8) -> Result<Place, Refusal>
        ensures place { result ≡ place_told (place_of_actor self.now.page_bytes
            (has_number self.now.actors actor.0) address bytes) }
        ensures load { IfErr result (λ r. CallDone meaning self.now
            (Command.Load actor address bytes) (Err (Trouble.Refused r)) self.now) }
        ensures store { IfErr result (λ r. (piece : List ℕ) → length piece ≡ bytes →
            CallDone meaning self.now
            (Command.Store actor address piece) (Err (Trouble.Refused r)) self.now) }
        ensures admitted { IfOk result
            (λ _. Admits self.now (Command.Load actor address bytes)) }
        ensures unrefused { IfOk result (λ _. (h : Option Held) → IsValid self.now h →
            IsUnrefused (state_at self.now h) (Command.Load actor address bytes)) }
        ensures protected { IfOk result (λ place. place.prot.write ≡ false →
            (piece : List ℕ) → length piece ≡ bytes → CallDone meaning self.now
            (Command.Store actor address piece) (Err (Trouble.Refused Refusal.Protection))
            self.now) }
    {
        self.contexts.locate(actor, address, bytes)
    }

    // Whether an access at an address of an actor needs no page to be brought in.
    pub(crate) fn is_ready(&self, actor: ActorId, address: u64) -> bool
        ensures { result ≡ access.is_ready self.now actor.0 address }
    {
        match self.contexts.locate(actor, address, 1) {
            Ok(place) => {
                let node = node_of(&self.caches, place.cache, place.page);
                has_page_at_hand(&self.caches, node)
            }
            Err(_) => false,
        }
    }

    // The nodes of the page at a place.
    pub(crate) fn nodes_at(&self, place: Place) -> NodesAt
        requires place { (actor : ℕ) × (address : ℕ) × (count : ℕ) × (Ok place ≡ place_told
            (place_of_actor self.now.page_bytes (has_number self.now.actors actor) address count)) }
        ensures nodes { AreNodesOf self.now.caches place.cache place.page
            result.node result.owner }
        ensures ready { (actor address count : ℕ) → Ok place ≡ place_told
            (place_of_actor self.now.page_bytes (has_number self.now.actors actor) address count)
            → faults.is_at_hand (own_of self.now.caches result.owner)
            ≡ access.is_ready self.now actor address }
    {
        let node = node_of(&self.caches, place.cache, place.page);
        let owner = owner_of(&self.caches, node);
        NodesAt { node, owner }
    }

    // Whether the own page of a node is at hand.
    pub(crate) fn is_owner_at_hand(&self, owner: NodeId) -> bool
        requires { HasNode self.now.caches owner }
        ensures { result ≡ faults.is_at_hand (own_of self.now.caches owner) }
    {
        has_own_at_hand(&self.caches, owner)
    }

    // A load at a place, the nodes of whose page are told.
    pub(crate) fn load_at<M: Mapper, C: Chooser>(
        &mut self,
        nodes: NodesAt,
        place: Place,
        actor: ActorId,
        address: u64,
        bytes: u8,
        mapper: &mut M,
        chooser: &mut C,
    ) -> Result<Piece, Trouble>
        requires some { 1 ≤ bytes }
        requires few { bytes ≤ 64 }
        requires place { Ok place ≡ place_told (place_of_actor self.old.page_bytes
            (has_number self.old.actors actor.0) address bytes) }
        requires nodes { AreNodesOf self.old.caches place.cache place.page
            nodes.node nodes.owner }
        requires valid { IsValid self.old (M.held mapper.old) }
        requires fits { Fits (M.page_bytes mapper.old) (machine_of self.old (M.held mapper.old)) }
        ensures call { MapperCall M.Mapper meaning mapper.old self.old
            (Command.Load actor address bytes) (answer_by Reply.Bytes result) mapper.new self.new }
        ensures length { IfOk result (λ piece. length piece ≡ bytes) }
        ensures copies { self.new.caches.copies ≡ self.old.caches.copies }
        ensures unrefused { (r : Refusal) → result ≢ Err (Trouble.Refused r) }
        ensures missed { IfErr result (IsMissAt (M.counts mapper.old) (M.counts mapper.new)) }
        ensures pulled { is_ready self.old actor.0 address ≡ false → OnOk result
            (RoseBy 1 (M.counts mapper.old).pulls (M.counts mapper.new).pulls) }
        ensures no_more { OnErr result (NoMoreReady is_ready self.old self.new) }
        ensures admits { StillAdmits Admits self.old self.new }
        ensures at_hand { is_ready self.old actor.0 address ≡ true
            → IsAtHand self.old actor.0 address bytes }
        ensures idle { IsAtHand self.old actor.0 address bytes
            → IsOk result × SameButSeen self.old self.new × (mapper.new ≡ mapper.old) }
        ensures loaded { IfOk result (IsLoaded (M.counts mapper.old) (M.counts mapper.new)
            (M.given mapper.new) self.old self.new actor.0 address bytes) }
    {
        match read_owner(
            &mut self.store,
            &mut self.caches,
            nodes.owner,
            mapper,
            chooser,
        ) {
            Ok(found) => {
                remember_found(&mut self.store, &self.contexts, actor, address, found);
                Ok(part_of(&self.store, found, place.at, bytes))
            }
            Err(miss) => Err(Trouble::Mapper(fault_of(miss, place.page))),
        }
    }

    /// Issues a load: it is answered as by `load`, or it has to wait for its page, which is `None`:
    /// exactly where nothing refuses it and the page is neither in a frame nor zeros. The mapper
    /// isn't called.
    pub fn issue_load<M: Mapper, C: Chooser>(
        &mut self,
        actor: ActorId,
        address: u64,
        bytes: u8,
        mapper: &mut M,
        chooser: &mut C,
    ) -> Option<Result<Piece, Trouble>>
        requires some { 1 ≤ bytes }
        requires few { bytes ≤ 64 }
        requires valid { IsValid self.old (M.held mapper.old) }
        requires fits { Fits (M.page_bytes mapper.old) (machine_of self.old (M.held mapper.old)) }
        ensures answered { IfSome result (λ r.
            AccessCall M.Mapper meaning NoPull mapper.old self.old
            (Command.Load actor address bytes) (answer_by Reply.Bytes r) mapper.new self.new) }
        ensures at_hand { IfSome result (λ r. IsOk r
            → is_ready self.old actor.0 address ≡ true) }
        ensures waits { IfNone result (Waits M.Mapper meaning mapper.old self.old
            (Command.Load actor address bytes) mapper.new self.new) }
        ensures not_ready { IfNone result (is_ready self.old actor.0 address ≡ false) }
        ensures admitted { IfNone result (Admits self.new (Command.Load actor address bytes)) }
        ensures no_more_ready { NoMoreReady is_ready self.old self.new }
        ensures still_admits { StillAdmits Admits self.old self.new }
        ensures idle { SameButSeen self.old self.new × (mapper.new ≡ mapper.old) }
        ensures loaded { IfSome result (λ r. IfOk r (IsLoaded (M.counts mapper.old)
            (M.counts mapper.new) (M.given mapper.new) self.old self.new actor.0 address bytes)) }
    {
        match self.load_seen(actor, address, bytes) {
            Some(piece) => Some(Ok(piece)),
            None => match self.locate(actor, address, bytes) {
                Ok(place) => {
                    let nodes = self.nodes_at(place);
                    if self.is_owner_at_hand(nodes.owner) {
                        Some(self.load_at(nodes, place, actor, address, bytes, mapper, chooser))
                    } else {
                        None
                    }
                }
                Err(refusal) => Some(Err(Trouble::Refused(refusal))),
            },
        }
    }

    /// Carries out a load that waited, as `load` does, and tells whether its page came: it was at
    /// hand, or was brought in.
    pub fn deliver_load<M: Mapper, C: Chooser>(
        &mut self,
        actor: ActorId,
        address: u64,
        bytes: u8,
        mapper: &mut M,
        chooser: &mut C,
    ) -> (Result<Piece, Trouble>, bool)
        requires some { 1 ≤ bytes }
        requires few { bytes ≤ 64 }
        requires valid { IsValid self.old (M.held mapper.old) }
        requires fits { Fits (M.page_bytes mapper.old) (machine_of self.old (M.held mapper.old)) }
        ensures delivered { AccessCall M.Mapper meaning (IsDelivered
            (is_ready self.old actor.0 address)
            (record { answer = answer_by Reply.Bytes result.0; came = result.1 }))
            mapper.old self.old (Command.Load actor address bytes) (answer_by Reply.Bytes result.0)
            mapper.new self.new }
        ensures no_refusal { Admits self.old (Command.Load actor address bytes)
            → (r : Refusal) → result.0 ≢ Err (Trouble.Refused r) }
        ensures no_more_ready { result.1 ≡ false → NoMoreReady is_ready self.old self.new }
        ensures still_admits { StillAdmits Admits self.old self.new }
        ensures loaded { IfOk result.0 (IsLoaded (M.counts mapper.old)
            (M.counts mapper.new) (M.given mapper.new) self.old self.new actor.0 address bytes) }
    {
        match self.load_seen(actor, address, bytes) {
            Some(piece) => (Ok(piece), true),
            None => match self.locate(actor, address, bytes) {
                Ok(place) => {
                    let nodes = self.nodes_at(place);
                    let ready = self.is_owner_at_hand(nodes.owner);
                    match self.load_at(nodes, place, actor, address, bytes, mapper, chooser) {
                        Ok(piece) => (Ok(piece), true),
                        Err(trouble) => (Err(trouble), ready),
                    }
                }
                Err(refusal) => (
                    Err(Trouble::Refused(refusal)),
                    self.is_ready(actor, address),
                ),
            },
        }
    }
}

// The parts of a store: the page is found by its translation, or else made ready for the write.
ghost use Rattle.std.specs.Prelude.{◌≡◌, ◌≢◌, ℕ, ◌+◌, ◌≤◌, ◌^◌, Option, length, true, false, Ok, Err, IfErr, IfNone, IfOk, IfSome, IsOk, List, OnErr, OnOk};
ghost use Rattle.vm_ids.specs.Held.{Held};
ghost use Rattle.vm_ids.specs.Forest.Commands.{page_name};
ghost use Rattle.vm_model.specs.Machine.{numbered as has_number};
ghost use Rattle.vm_model.specs.Place.{place_of_actor};
ghost use Rattle.regions.specs.AddressSpace.{place_told};
ghost use Rattle.page_commands.specs.Homes.{IsWritable};
ghost use Rattle.vm_ids.specs.Counting.{RoseBy};
ghost use Rattle.vm_model.specs.Run.{IsUnrefused};
ghost use Rattle.gmi_calls.specs.Calling.{CallDone, Fits, MapperCall, done_by};
ghost use Rattle.gmi_calls.specs.Parking.{AccessCall, IsDelivered, NoMoreReady, NoPull, StillAdmits, Waits};
ghost use Rattle.segment_ops.specs.Access.{GrantsStay};
ghost use Rattle.pvm_core.specs.Access.{Admits, AreNodesOf, AskedInVain, IsLookedFor, IsMissAt, IsNoPage, IsReadyToWrite, OnNoAccess, is_ready};
ghost use Rattle.pvm_core.specs.Leaving.{IsTranslatedToWrite};
ghost use Rattle.pvm_core.specs.Manager.{IsValid, machine_of, meaning, numbered, state_at};

use crate::Pvm;
use crate::loads::NodesAt;
use crate::pieces::{fault_of, write_found, write_frame};
use crate::translations::{byte_at, remember, translated_for_writing};
use crate::writes::grant_range;
use fault_path::{read_fault, write_from_owner};
use page_tables::Translation;
use regions::Place;
use vm_ids::{ActorId, Command, Extent, FaultAt, Piece, Refusal, Trouble};
use vm_port::{Chooser, Mapper};

impl Pvm {
    // A store whose page a translation for writing leads to. `false` where none does.
    #[inline(always)]
    pub(crate) fn store_seen(&mut self, actor: ActorId, address: u64, piece: &Piece) -> bool
        requires valid { (h : Option Held) × IsValid self.old h }
        ensures unseen { result ≡ false → self.new ≡ self.old }
        ensures call { result ≡ true → CallDone meaning self.old
            (Command.Store actor address piece.now) (done_by (Ok tt)) self.new }
        ensures ready { result ≡ true → is_ready self.old actor.0 address ≡ true }
        ensures no_more { NoMoreReady is_ready self.old self.new }
        ensures admits { StillAdmits Admits self.old self.new }
        ensures copies { self.new.caches.copies ≡ self.old.caches.copies }
        ensures grants { GrantsStay self.old.caches self.new.caches }
        ensures translated { result ≡ true
            → IsTranslatedToWrite self.new actor.0 address (length piece.now) }
    {
        let bytes = piece.as_slice();
        let length = bytes.len() as u8;
        if let Some(frame) = translated_for_writing(
            &self.store,
            &self.contexts,
            actor,
            address,
            length,
        ) {
            let byte = byte_at(&self.contexts, address);
            write_found(&mut self.store, &mut self.caches, frame, byte, bytes);
            return true;
        }
        false
    }

    // The place of a store, whose page may be written then. Refused as `NoActor`, `Crosses`,
    // `BadAddress`, `Protection` or `WriteDenied`, in this order. The mapper is asked for write
    // access alone.
    pub(crate) fn place_to_write<M: Mapper>(
        &mut self,
        actor: ActorId,
        address: u64,
        piece: &Piece,
        mapper: &mut M,
    ) -> Result<Place, Trouble>
        requires valid { IsValid self.old (M.held mapper.old) }
        requires fits { Fits (M.page_bytes mapper.old) (machine_of self.old (M.held mapper.old)) }
        ensures call { IfErr result (λ trouble. MapperCall M.Mapper meaning mapper.old self.old
            (Command.Store actor address piece.now) (Err trouble) mapper.new self.new) }
        ensures place { IfOk result (λ place. Ok place ≡ place_told (place_of_actor
            self.new.page_bytes (has_number self.new.actors actor.0) address (length piece.now))) }
        ensures ready { IfOk result (λ place. IsReadyToWrite M.Mapper
            mapper.old self.old place mapper.new self.new) }
        ensures copies { self.new.caches.copies ≡ self.old.caches.copies }
        ensures grants { GrantsStay self.old.caches self.new.caches }
        ensures hands { (a x : ℕ) → is_ready self.new a x ≡ is_ready self.old a x }
        ensures admits { StillAdmits Admits self.old self.new }
        ensures admitted { IfOk result
            (λ _. Admits self.new (Command.Store actor address piece.now)) }
        ensures unrefused { IfOk result (λ _. IsUnrefused (state_at self.old (M.held mapper.old))
            (Command.Store actor address piece.now)) }
        ensures no_refusal { Admits self.old (Command.Store actor address piece.now)
            → (r : Refusal) → result ≢ Err (Trouble.Refused r) }
        ensures no_page { IfErr result IsNoPage }
        ensures no_pull { RoseBy 0 (M.counts mapper.old).pulls (M.counts mapper.new).pulls }
        ensures refused { IfErr result (λ trouble. (r : Refusal) → trouble ≡ Trouble.Refused r
            → (self.new ≡ self.old) × (r ≢ Refusal.WriteDenied → mapper.new ≡ mapper.old)) }
        ensures asked { IfErr result (λ trouble. OnNoAccess (Err trouble)
            (AskedInVain self.old self.new actor.0 address (length piece.now))) }
    {
        let bytes = piece.as_slice();
        let length = bytes.len() as u8;
        let place = self.locate(actor, address, length)?;
        if !place.prot.write {
            return Err(Trouble::Refused(Refusal::Protection));
        }
        let range = Extent {
            cache: place.cache,
            first: place.page,
            pages: 1,
        };
        grant_range(&self.store, &mut self.caches, range, mapper)?;
        Ok(place)
    }

    // A store at a place, where the page may be written, whose nodes are told.
    pub(crate) fn store_at<M: Mapper, C: Chooser>(
        &mut self,
        nodes: NodesAt,
        place: Place,
        actor: ActorId,
        address: u64,
        piece: &Piece,
        mapper: &mut M,
        chooser: &mut C,
    ) -> Result<(), Trouble>
        requires place { Ok place ≡ place_told (place_of_actor self.old.page_bytes
            (has_number self.old.actors actor.0) address (length piece.now)) }
        requires nodes { AreNodesOf self.old.caches place.cache place.page
            nodes.node nodes.owner }
        requires may_write { place.prot.write ≡ true }
        requires writable { IsWritable self.old.caches (page_name place.cache place.page.0) }
        requires valid { IsValid self.old (M.held mapper.old) }
        requires made { numbered self.old ≤ 2 ^ 62 }
        requires fits { Fits (M.page_bytes mapper.old) (machine_of self.old (M.held mapper.old)) }
        ensures call { MapperCall M.Mapper meaning mapper.old self.old
            (Command.Store actor address piece.now) (done_by result) mapper.new self.new }
        ensures copies { self.new.caches.copies ≤ self.old.caches.copies + 2 }
        ensures unrefused { (r : Refusal) → result ≢ Err (Trouble.Refused r) }
        ensures asked { OnNoAccess result ⊥ }
        ensures admits { StillAdmits Admits self.old self.new }
        ensures no_more { is_ready self.old actor.0 address ≡ true
            → NoMoreReady is_ready self.old self.new }
        ensures no_pull { is_ready self.old actor.0 address ≡ true
            → RoseBy 0 (M.counts mapper.old).pulls (M.counts mapper.new).pulls }
        ensures victim { is_ready self.old actor.0 address ≡ true
            → IfErr result (λ trouble. trouble ≡ Trouble.Mapper FaultAt.Victim) }
        ensures grants { GrantsStay self.old.caches self.new.caches }
        ensures translated { OnOk result
            (IsTranslatedToWrite self.new actor.0 address (length piece.now)) }
    {
        let bytes = piece.as_slice();
        match write_from_owner(
            &mut self.store,
            &mut self.caches,
            nodes.node,
            nodes.owner,
            mapper,
            chooser,
        ) {
            Ok(frame) => {
                write_frame(&mut self.store, frame, place.at, bytes);
                let to = Translation {
                    frame,
                    writable: true,
                };
                remember(&mut self.store, &self.contexts, actor, address, to);
                Ok(())
            }
            Err(miss) => Err(Trouble::Mapper(fault_of(miss, place.page))),
        }
    }

    // The page at a place, whose nodes are told, is brought in where it isn't at hand.
    fn bring_page<M: Mapper, C: Chooser>(
        &mut self,
        nodes: NodesAt,
        place: Place,
        actor: ActorId,
        address: u64,
        mapper: &mut M,
        chooser: &mut C,
    ) -> Result<(), Trouble>
        requires place { (n : ℕ) × (Ok place ≡ place_told (place_of_actor self.old.page_bytes
            (has_number self.old.actors actor.0) address n)) }
        requires nodes { AreNodesOf self.old.caches place.cache place.page
            nodes.node nodes.owner }
        requires valid { IsValid self.old (M.held mapper.old) }
        requires fits { Fits (M.page_bytes mapper.old) (machine_of self.old (M.held mapper.old)) }
        ensures brought { IsLookedFor M.Mapper mapper.old self.old mapper.new self.new }
        ensures nodes { AreNodesOf self.new.caches place.cache place.page
            nodes.node nodes.owner }
        ensures ready { OnOk result (is_ready self.new actor.0 address ≡ true) }
        ensures pulled { OnOk result (is_ready self.old actor.0 address ≡ false
            → RoseBy 1 (M.counts mapper.old).pulls (M.counts mapper.new).pulls) }
        ensures missed { IfErr result (IsMissAt (M.counts mapper.old) (M.counts mapper.new)) }
        ensures call { IfErr result (λ trouble. (piece : List ℕ) → place.prot.write ≡ true →
            IsWritable self.old.caches (page_name place.cache place.page.0) →
            Ok place ≡ place_told (place_of_actor self.old.page_bytes
            (has_number self.old.actors actor.0) address (length piece)) →
            MapperCall M.Mapper meaning mapper.old self.old
            (Command.Store actor address piece) (Err trouble) mapper.new self.new) }
        ensures no_more { OnErr result (NoMoreReady is_ready self.old self.new) }
        ensures admits { StillAdmits Admits self.old self.new }
        ensures grants { GrantsStay self.old.caches self.new.caches }
    {
        let node = nodes.node;
        if let Err(miss) = read_fault(&mut self.store, &mut self.caches, node, mapper, chooser) {
            return Err(Trouble::Mapper(fault_of(miss, place.page)));
        }
        Ok(())
    }

    /// Issues a store: it is answered as by `store`, or it has to wait for its page, which is
    /// `None`. Where the page is in a frame or zeros it is answered; where it isn't, the store is
    /// refused, answers a fault of the mapper, or else waits, and then a call of the mapper may have
    /// failed all the same. No page is pulled.
    pub fn issue_store<M: Mapper, C: Chooser>(
        &mut self,
        actor: ActorId,
        address: u64,
        piece: &Piece,
        mapper: &mut M,
        chooser: &mut C,
    ) -> Option<Result<(), Trouble>>
        requires valid { IsValid self.old (M.held mapper.old) }
        requires made { numbered self.old ≤ 2 ^ 62 }
        requires fits { Fits (M.page_bytes mapper.old) (machine_of self.old (M.held mapper.old)) }
        ensures answered { IfSome result (λ r.
            AccessCall M.Mapper meaning NoPull mapper.old self.old
            (Command.Store actor address piece.now) (done_by r) mapper.new self.new) }
        ensures at_hand { IfSome result (λ r. IsOk r
            → is_ready self.old actor.0 address ≡ true) }
        ensures waits { IfNone result (Waits M.Mapper meaning mapper.old self.old
            (Command.Store actor address piece.now) mapper.new self.new) }
        ensures not_ready { IfNone result (is_ready self.old actor.0 address ≡ false) }
        ensures admitted { IfNone result
            (Admits self.new (Command.Store actor address piece.now)) }
        ensures no_more_ready { NoMoreReady is_ready self.old self.new }
        ensures still_admits { StillAdmits Admits self.old self.new }
        ensures copies { self.new.caches.copies ≤ self.old.caches.copies + 2 }
        ensures grants { GrantsStay self.old.caches self.new.caches }
        ensures translated { IfSome result (λ r. OnOk r
            (IsTranslatedToWrite self.new actor.0 address (length piece.now))) }
    {
        if self.store_seen(actor, address, piece) {
            return Some(Ok(()));
        }
        match self.place_to_write(actor, address, piece, mapper) {
            Ok(place) => {
                let nodes = self.nodes_at(place);
                if self.is_owner_at_hand(nodes.owner) {
                    Some(self.store_at(nodes, place, actor, address, piece, mapper, chooser))
                } else {
                    None
                }
            }
            Err(trouble) => Some(Err(trouble)),
        }
    }

    /// Carries out a store that waited, as `store` does, and tells whether its page came: it was
    /// at hand, or was brought in.
    pub fn deliver_store<M: Mapper, C: Chooser>(
        &mut self,
        actor: ActorId,
        address: u64,
        piece: &Piece,
        mapper: &mut M,
        chooser: &mut C,
    ) -> (Result<(), Trouble>, bool)
        requires valid { IsValid self.old (M.held mapper.old) }
        requires made { numbered self.old ≤ 2 ^ 62 }
        requires fits { Fits (M.page_bytes mapper.old) (machine_of self.old (M.held mapper.old)) }
        ensures delivered { AccessCall M.Mapper meaning (IsDelivered
            (is_ready self.old actor.0 address)
            (record { answer = done_by result.0; came = result.1 }))
            mapper.old self.old (Command.Store actor address piece.now) (done_by result.0)
            mapper.new self.new }
        ensures no_refusal { Admits self.old (Command.Store actor address piece.now)
            → (r : Refusal) → result.0 ≢ Err (Trouble.Refused r) }
        ensures no_more_ready { result.1 ≡ false → NoMoreReady is_ready self.old self.new }
        ensures still_admits { StillAdmits Admits self.old self.new }
        ensures copies { self.new.caches.copies ≤ self.old.caches.copies + 2 }
        ensures grants { GrantsStay self.old.caches self.new.caches }
        ensures translated { OnOk result.0
            (IsTranslatedToWrite self.new actor.0 address (length piece.now)) }
    {
        if self.store_seen(actor, address, piece) {
            return (Ok(()), true);
        }
        let place = match self.place_to_write(actor, address, piece, mapper) {
            Ok(place) => place,
            Err(trouble) => return (Err(trouble), self.is_ready(actor, address)),
        };
        let nodes = self.nodes_at(place);
        if self.is_owner_at_hand(nodes.owner) {
            return (
                self.store_at(nodes, place, actor, address, piece, mapper, chooser),
                true,
            );
        }
        match self.bring_page(nodes, place, actor, address, mapper, chooser) {
            Ok(()) => (
                self.store_at(nodes, place, actor, address, piece, mapper, chooser),
                true,
            ),
            Err(trouble) => (Err(trouble), false),
        }
    }
}

// The calls of the ports.
ghost use Rattle.std.specs.Prelude.{◌≡◌, ◌==◌, ◌⊎◌, ℕ, Option, Some, ◌≤◌, ◌<◌, ◌+◌, ◌^◌, length, slice_get, IfErr, IfOk, OnErr};
ghost use Rattle.vm_ids.specs.declared.refusal.Refusal.TheVariants.{NoPort};
ghost use Rattle.vm_ids.specs.Held.{Held, segments_of};
ghost use Rattle.vm_model.specs.Answering.{answer_by};
ghost use Rattle.vm_model.specs.Asking.{IsWellFormed};
ghost use Rattle.vm_model.specs.declared.limits.TheConstants.{MOST_MADE};
ghost use Rattle.gmi_calls.specs.Calling.{CallDone, Fits, MapperCall, done_by};
ghost use Rattle.gmi_calls.specs.Managing.{meanings_of};
ghost use Rattle.transit_ipc.specs.Calling.{IsMade, IsServed, PortCall, beginning, made_by};
ghost use Rattle.transit_ipc.specs.Inner.{IsFirst, IsTaken, mapping_shown, received_span, sent_span, shown};
ghost use Rattle.transit_ipc.specs.Seen.{state_of};
ghost use Rattle.transit_ipc.specs.Transit.{is_marked, is_transit};
ghost use Rattle.transit_ipc.specs.Tying.{AreApart, CanCall, IsBare};

use crate::Ports;
use crate::limits::MOST_PORTS;
use crate::port::{Message, Port};
use gmi_calls::Gmi;
use std::alloc::Global;
use std::collections::VecDeque;
use vm_ids::{
    ActorId, Answer, CacheId, Command, Extent, Mapping, NoMemory, PageNo, PortCommand, PortId,
    Refusal, RegionId, Reply, Span, Trouble,
};
use vm_model::MOST_MADE;
use vm_port::{Chooser, Mapper};

// No cache has this number.
const NO_CACHE: CacheId = CacheId(0);

// The numbers that a cache may have, and that of none.
const CACHE_NUMBERS: usize = MOST_MADE as usize + 1;

impl<G> Ports<G> {
    /// No ports. They can be called where the manager has no caches and no regions, and its room
    /// isn't limited.
    pub fn new<M: Mapper, C: Chooser>(alloc: Global, gmi: G) -> Ports<G>
    where
        G: Gmi<M, C>,
        ensures can { (told : Option Held) (page_bytes : Option ℕ)
            → IsBare G.Gmi gmi told page_bytes → CanCall G.Gmi result told page_bytes }
        ensures begins { (told : Option Held) → state_of G.Gmi result told
            ≡ beginning (G.machine gmi told) (segments_of told) }
        ensures made { made_by G.Gmi result ≡ G.made gmi }
    {
        Ports {
            alloc,
            gmi,
            ports: Vec::new(alloc),
            transit: Vec::new(alloc),
        }
    }

    /// Whether a cache holds a message that waits. A command that names it finds no such cache.
    pub fn hidden(&self, cache: CacheId) -> bool
        ensures { result ≡ is_transit self.now.ports.items cache.0 }
    {
        match self.transit.get(cache.0 as usize) {
            Some(waits) => *waits,
            None => false,
        }
    }

    /// Makes a port at which so many messages may wait, and takes the room for them. Refused as
    /// `TooMany` exactly where 1,024 ports were made.
    pub fn make_port(&mut self, depth: u32) -> Result<PortId, Trouble>
        ensures { IsMade self.old depth (answer_by Reply.Port result) self.new }
    {
        let made = self.ports.len();
        if made >= MOST_PORTS as usize {
            return Err(Trouble::Refused(Refusal::TooMany));
        }
        lengthen(&mut self.transit)?;
        let messages = VecDeque::with_capacity(self.alloc, depth as usize)?;
        self.ports.reserve(1)?;
        self.ports.push_reserved(Port { depth, messages });
        Ok(PortId(made as u32 + 1))
    }

    /// Sends what some pages of a cache hold at this moment as one message. Refused as `NoPort`,
    /// `PortFull`, `TooMany`, `NoCache` or `OutOfCache`, in this order.
    pub fn send<M: Mapper, C: Chooser>(
        &mut self,
        port: PortId,
        extent: Extent,
        mapper: &mut M,
        chooser: &mut C,
    ) -> Result<(), Trouble>
    where
        G: Gmi<M, C>,
        requires some { 1 ≤ extent.pages }
        requires can { CanCall G.Gmi self.old (M.held mapper.old) (M.page_bytes mapper.old) }
        requires made { G.made self.old.gmi ≤ 2 ^ 61 }
        ensures { PortCall M.Mapper G.Gmi mapper.old self.old (PortCommand.Send port extent)
            (done_by result) mapper.new self.new }
    {
        let place = self.place_of(port)?;
        if self.is_full(place) {
            return Err(Trouble::Refused(Refusal::PortFull));
        }
        let cache = self.gmi.make_temp(extent.pages)?;
        let message = Message {
            cache,
            pages: extent.pages,
        };
        match self.fill(message, extent, mapper, chooser) {
            Ok(()) => {
                self.transit[cache.0 as usize] = true;
                self.ports[place].messages.push_back_reserved(message);
                Ok(())
            }
            Err(trouble) => {
                let _ = self.gmi.destroy(cache, mapper, chooser);
                Err(trouble)
            }
        }
    }

    /// Takes the first message of a port out, and puts its pages into a cache from this page on.
    /// Refused as `NoPort`, `PortEmpty`, `NoCache`, `OutOfCache`, `Locked` or `WriteDenied`, in
    /// this order.
    pub fn receive<M: Mapper, C: Chooser>(
        &mut self,
        port: PortId,
        cache: CacheId,
        page: PageNo,
        mapper: &mut M,
        chooser: &mut C,
    ) -> Result<(), Trouble>
    where
        G: Gmi<M, C>,
        requires can { CanCall G.Gmi self.old (M.held mapper.old) (M.page_bytes mapper.old) }
        requires made { G.made self.old.gmi ≤ 2 ^ 61 }
        ensures { PortCall M.Mapper G.Gmi mapper.old self.old (PortCommand.Receive port cache page)
            (done_by result) mapper.new self.new }
    {
        let place = self.place_of(port)?;
        let message = self.first_of(place)?;
        self.take_out(message, cache, page, mapper, chooser)?;
        self.take_first(place);
        let _ = self.gmi.destroy(message.cache, mapper, chooser);
        Ok(())
    }

    /// Passes a command on to the manager. It finds no cache that is hidden.
    pub fn answer<M: Mapper, C: Chooser>(
        &mut self,
        command: &Command,
        mapper: &mut M,
        chooser: &mut C,
    ) -> Answer
    where
        G: Gmi<M, C>,
        requires served { IsServed command.now }
        requires formed { IsWellFormed command.now }
        requires can { CanCall G.Gmi self.old (M.held mapper.old) (M.page_bytes mapper.old) }
        requires made { G.made self.old.gmi ≤ 2 ^ 61 }
        ensures { PortCall M.Mapper G.Gmi mapper.old self.old (PortCommand.Plain command.now)
            result mapper.new self.new }
    {
        match command {
            Command::Map(actor, mapping) => {
                let region = self.map(*actor, *mapping)?;
                Ok(Reply::Region(region))
            }
            command => gmi_calls::answer(&mut self.gmi, command, mapper, chooser),
        }
    }

    // Maps pages of a cache, as it is found.
    fn map<M: Mapper, C: Chooser>(
        &mut self,
        actor: ActorId,
        mapping: Mapping,
    ) -> Result<RegionId, Trouble>
    where
        G: Gmi<M, C>,
        requires some { 1 ≤ mapping.extent.pages }
        requires valid { (told : Option Held) × G.valid self.old.gmi told }
        requires made { G.made self.old.gmi ≤ 2 ^ 62 }
        ensures call { CallDone (meanings_of G.Gmi) self.old.gmi
            (Command.Map actor (mapping_shown self.old.ports.items mapping))
            (answer_by Reply.Region result) self.new.gmi }
        ensures same { self.new ≡ record self.old { gmi = self.new.gmi } }
    {
        let Mapping {
            extent,
            address,
            prot,
        } = mapping;
        let extent = Extent {
            cache: self.shown(extent.cache),
            first: extent.first,
            pages: extent.pages,
        };
        self.gmi.map(
            actor,
            Mapping {
                extent,
                address,
                prot,
            },
        )
    }

    // Copies what is sent into the cache of its message.
    fn fill<M: Mapper, C: Chooser>(
        &mut self,
        message: Message,
        extent: Extent,
        mapper: &mut M,
        chooser: &mut C,
    ) -> Result<(), Trouble>
    where
        G: Gmi<M, C>,
        requires some { 1 ≤ extent.pages }
        requires valid { G.valid self.old.gmi (M.held mapper.old) }
        requires made { G.made self.old.gmi ≤ 2 ^ 62 }
        requires fits { Fits (M.page_bytes mapper.old)
            (G.machine self.old.gmi (M.held mapper.old)) }
        ensures call { MapperCall M.Mapper (meanings_of G.Gmi) mapper.old self.old.gmi
            (Command.Copy (sent_span self.old.ports.items message extent)) (done_by result)
            mapper.new self.new.gmi }
        ensures same { self.new ≡ record self.old { gmi = self.new.gmi } }
    {
        let from = if extent.cache == message.cache {
            NO_CACHE
        } else {
            self.shown(extent.cache)
        };
        let span = Span {
            from,
            from_page: extent.first,
            to: message.cache,
            to_page: PageNo(0),
            pages: extent.pages,
        };
        self.gmi.copy_pages(span, mapper, chooser)
    }

    // Moves the pages of a message out of its cache.
    fn take_out<M: Mapper, C: Chooser>(
        &mut self,
        message: Message,
        cache: CacheId,
        page: PageNo,
        mapper: &mut M,
        chooser: &mut C,
    ) -> Result<(), Trouble>
    where
        G: Gmi<M, C>,
        requires some { 1 ≤ message.pages }
        requires valid { G.valid self.old.gmi (M.held mapper.old) }
        requires made { G.made self.old.gmi ≤ 2 ^ 62 }
        requires fits { Fits (M.page_bytes mapper.old)
            (G.machine self.old.gmi (M.held mapper.old)) }
        ensures call { MapperCall M.Mapper (meanings_of G.Gmi) mapper.old self.old.gmi
            (Command.Move (received_span self.old.ports.items message cache page))
            (done_by result) mapper.new self.new.gmi }
        ensures same { self.new ≡ record self.old { gmi = self.new.gmi } }
    {
        let span = Span {
            from: message.cache,
            from_page: PageNo(0),
            to: self.shown(cache),
            to_page: page,
            pages: message.pages,
        };
        self.gmi.move_pages(span, mapper, chooser)
    }

    // A cache as a command finds it.
    fn shown(&self, cache: CacheId) -> CacheId
        ensures { result ≡ shown self.now.ports.items cache }
    {
        if self.hidden(cache) { NO_CACHE } else { cache }
    }

    // Where a port stands.
    fn place_of(&self, port: PortId) -> Result<usize, Refusal>
        ensures found { IfOk result (λ place. (port.0 ≡ place + 1)
            × (place < length self.now.ports.items)) }
        ensures nowhere { OnErr result
            ((port.0 ≡ 0) ⊎ (length self.now.ports.items < port.0)) }
        ensures refusal { IfErr result (λ r. r ≡ NoPort) }
    {
        let number = port.0 as usize;
        if number == 0 || number > self.ports.len() {
            return Err(Refusal::NoPort);
        }
        Ok(number - 1)
    }

    // The first message that waits at a port.
    fn first_of(&self, place: usize) -> Result<Message, Refusal>
        requires { place < length self.now.ports.items }
        ensures { (p : Port) → slice_get self.now.ports.items place ≡ Some p → IsFirst p result }
    {
        match self.ports[place].messages.front() {
            Some(message) => Ok(*message),
            None => Err(Refusal::PortEmpty),
        }
    }

    // The first message of a port is gone.
    fn take_first(&mut self, place: usize)
        requires place { place < length self.old.ports.items }
        requires apart { AreApart self.old.ports.items }
        ensures taken { (p : Port) → slice_get self.old.ports.items place ≡ Some p
            → IsTaken self.old.ports.items place p self.new.ports.items }
        ensures gmi { self.new.gmi ≡ self.old.gmi }
    {
        if let Some(message) = self.ports[place].messages.pop_front() {
            self.transit[message.cache.0 as usize] = false;
        }
    }

    // Whether as many messages wait at a port as may.
    fn is_full(&self, place: usize) -> bool
        requires { place < length self.now.ports.items }
        ensures { (p : Port) → slice_get self.now.ports.items place ≡ Some p
            → result ≡ (length p.messages.items == p.depth) }
    {
        let port = &self.ports[place];
        port.messages.len() == port.depth as usize
    }
}

// Gives the table a place for each number of a cache. No place is marked by it.
fn lengthen(transit: &mut Vec<bool>) -> Result<(), NoMemory>
    ensures marks { (n : ℕ) → is_marked transit.new.items n ≡ is_marked transit.old.items n }
    ensures longer { length transit.old.items ≤ length transit.new.items }
    ensures covered { IfOk result (λ done. MOST_MADE < length transit.new.items) }
{
    if transit.len() < CACHE_NUMBERS {
        transit.resize(CACHE_NUMBERS, false)?;
    }
    Ok(())
}

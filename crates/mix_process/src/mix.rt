// The processes, and the calls of them.
ghost use Rattle.std.specs.Prelude.{◌≡◌, ℕ, Option, ◌≤◌, ◌+◌, ◌-◌, ◌^◌, length, option_map, slice_get, slice_set, None, Some, IfErr, IfNone, IfOk, IfSome, OnErr};
ghost use Rattle.vm_ids.specs.Held.{Held, segments_of};
ghost use Rattle.vm_ids.specs.declared.refusal.Refusal.TheVariants.{NoProcess};
ghost use Rattle.vm_model.specs.Answering.{answer_by};
ghost use Rattle.vm_model.specs.Machine.{numbered};
ghost use Rattle.gmi_calls.specs.Calling.{done_by};
ghost use Rattle.mix_process.specs.Adding.{MapsInto};
ghost use Rattle.mix_process.specs.Answering.{is_too_large};
ghost use Rattle.mix_process.specs.Calling.{MixCall, beginning, made_by};
ghost use Rattle.mix_process.specs.Starting.{as_bad_image, image_for};
ghost use Rattle.mix_process.specs.declared.process.Process.{Process};
ghost use Rattle.mix_process.specs.Seen.{pages_in, state_of};
ghost use Rattle.mix_process.specs.declared.area.Area.TheVariants.{Data};
ghost use Rattle.mix_process.specs.Tying.{CanCall, IsBare};

mod ending;
mod parts;
mod starting;

use crate::Area;
use crate::area::{MOST_DATA, MOST_STACK, MOST_TEXT};
use crate::process::{Part, Process, mapping_behind, pages_in};
use gmi_calls::Gmi;
use std::alloc::Global;
use vm_ids::{CacheId, MixCommand, Piece, ProcId, Refusal, Reply, SegId, Trouble};
use vm_model::numbered;
use vm_port::{Chooser, Mapper};

// The cache of a segment of which a process was made, or was to be. It stays open.
#[derive(Clone, Copy)]
struct Image {
    seg: SegId,
    cache: CacheId,
}

/// Processes over a memory manager. Those made of one segment share its text, and each has data and
/// a stack of its own, which a fork copies; the manager defers these copies.
#[derive(Drop)]
pub struct Mix<G> {
    alloc: Global,
    gmi: G,
    // Processes stand at their number less 1.
    processes: Vec<Option<Process>>,
    images: Vec<Image>,
}

impl<G> Mix<G> {
    /// No processes. They can be called where the manager has no caches and actors, its room isn't
    /// limited, and its pages have 4,096 bytes.
    pub fn new<M: Mapper, C: Chooser>(alloc: Global, gmi: G) -> Mix<G>
    where
        G: Gmi<M, C>,
        ensures can { (told : Option Held) (page_bytes : Option ℕ)
            → IsBare G.Gmi gmi told page_bytes → CanCall G.Gmi result told page_bytes }
        ensures begins { (told : Option Held) → state_of G.Gmi result told
            ≡ beginning (G.machine gmi told) (segments_of told) }
        ensures made { made_by G.Gmi result ≡ G.made gmi }
    {
        Mix {
            alloc,
            gmi,
            processes: Vec::new(alloc),
            images: Vec::new(alloc),
        }
    }

    /// The manager below.
    pub fn manager(&self) -> &G
        ensures { result.now ≡ self.now.gmi }
    {
        &self.gmi
    }

    /// Makes a process of a segment: its first pages are the text, the pages behind these the data,
    /// and zeros the stack. Refused as `TooLarge`, `NoSegment` or `BadImage`, in this order, or as
    /// `TooMany`.
    pub fn exec<M: Mapper, C: Chooser>(
        &mut self,
        seg: SegId,
        text_pages: u32,
        data_pages: u32,
        stack_pages: u32,
        mapper: &mut M,
        chooser: &mut C,
    ) -> Result<ProcId, Trouble>
    where
        G: Gmi<M, C>,
        requires text { 1 ≤ text_pages }
        requires some { 1 ≤ data_pages }
        requires stack { 1 ≤ stack_pages }
        requires can { CanCall G.Gmi self.old (M.held mapper.old) (M.page_bytes mapper.old) }
        requires made { G.made self.old.gmi ≤ 2 ^ 61 }
        ensures { MixCall M.Mapper G.Gmi mapper.old self.old
            (MixCommand.Exec seg text_pages data_pages stack_pages) (answer_by Reply.Process result)
            mapper.new self.new }
    {
        if is_too_large(text_pages, data_pages, stack_pages) {
            return Err(Trouble::Refused(Refusal::TooLarge));
        }
        let image = self.open_image(seg, mapper)?;
        self.check_image(image, text_pages + data_pages)?;
        self.make_process()?;
        let text = Part {
            area: Area::Text,
            cache: image,
            pages: text_pages,
        };
        let made = self.load_image(text, data_pages, stack_pages, mapper, chooser);
        self.made_or_taken_back(made, mapper, chooser)
    }

    /// Makes a process that has what this one has at this moment. Refused as `NoProcess`, or as
    /// `TooMany`.
    pub fn fork<M: Mapper, C: Chooser>(
        &mut self,
        of: ProcId,
        mapper: &mut M,
        chooser: &mut C,
    ) -> Result<ProcId, Trouble>
    where
        G: Gmi<M, C>,
        requires can { CanCall G.Gmi self.old (M.held mapper.old) (M.page_bytes mapper.old) }
        requires made { G.made self.old.gmi ≤ 2 ^ 61 }
        ensures { MixCall M.Mapper G.Gmi mapper.old self.old
            (MixCommand.Fork of) (answer_by Reply.Process result)
            mapper.new self.new }
    {
        let parent = self.place_of(of)?;
        self.make_process()?;
        let made = self.copy_parts(parent, mapper, chooser);
        self.made_or_taken_back(made, mapper, chooser)
    }

    /// Ends a process. Refused as `NoProcess` exactly where no living process has the number. It
    /// takes no memory.
    pub fn exit<M: Mapper, C: Chooser>(
        &mut self,
        of: ProcId,
        mapper: &mut M,
        chooser: &mut C,
    ) -> Result<(), Trouble>
    where
        G: Gmi<M, C>,
        requires can { CanCall G.Gmi self.old (M.held mapper.old) (M.page_bytes mapper.old) }
        requires made { G.made self.old.gmi ≤ 2 ^ 61 }
        ensures { MixCall M.Mapper G.Gmi mapper.old self.old (MixCommand.Exit of) (done_by result)
            mapper.new self.new }
    {
        match numbered(&self.processes, of.0) {
            Some(_) => {}
            None => return Err(Trouble::Refused(Refusal::NoProcess)),
        }
        match take(&mut self.processes, of) {
            Some(process) => {
                self.end(process, mapper, chooser);
                Ok(())
            }
            None => unreachable!(),
        }
    }

    /// Appends pages of zeros to the data of a process. Refused as `NoProcess` or `TooLarge`, in
    /// this order, or as `TooMany`.
    pub fn grow<M: Mapper, C: Chooser>(
        &mut self,
        of: ProcId,
        pages: u32,
        mapper: &mut M,
        chooser: &mut C,
    ) -> Result<(), Trouble>
    where
        G: Gmi<M, C>,
        requires some { 1 ≤ pages }
        requires can { CanCall G.Gmi self.old (M.held mapper.old) (M.page_bytes mapper.old) }
        requires made { G.made self.old.gmi ≤ 2 ^ 61 }
        ensures { MixCall M.Mapper G.Gmi mapper.old self.old
            (MixCommand.Grow of pages) (done_by result)
            mapper.new self.new }
    {
        let place = self.place_of(of)?;
        if self.data_pages(place) + pages as u64 > MOST_DATA as u64 {
            return Err(Trouble::Refused(Refusal::TooLarge));
        }
        self.add_own(place, Area::Data, pages, None, mapper, chooser)
    }

    /// Loads so many bytes, 1 to 64, at an address of a process. Refused as `NoProcess`, `Crosses`
    /// or `BadAddress`, in this order.
    pub fn load<M: Mapper, C: Chooser>(
        &mut self,
        of: ProcId,
        address: u64,
        length: u8,
        mapper: &mut M,
        chooser: &mut C,
    ) -> Result<Piece, Trouble>
    where
        G: Gmi<M, C>,
        requires some { 1 ≤ length }
        requires few { length ≤ 64 }
        requires can { CanCall G.Gmi self.old (M.held mapper.old) (M.page_bytes mapper.old) }
        requires made { G.made self.old.gmi ≤ 2 ^ 61 }
        ensures { MixCall M.Mapper G.Gmi mapper.old self.old (MixCommand.Load of address length)
            (answer_by Reply.Bytes result) mapper.new self.new }
    {
        let actor = match numbered(&self.processes, of.0) {
            Some(process) => process.actor,
            None => return Err(Trouble::Refused(Refusal::NoProcess)),
        };
        self.gmi.load(actor, address, length, mapper, chooser)
    }

    /// Stores bytes at an address of a process. Refused as `NoProcess`, `Crosses`, `BadAddress` or
    /// `Protection`, in this order.
    pub fn store<M: Mapper, C: Chooser>(
        &mut self,
        of: ProcId,
        address: u64,
        piece: &Piece,
        mapper: &mut M,
        chooser: &mut C,
    ) -> Result<(), Trouble>
    where
        G: Gmi<M, C>,
        requires can { CanCall G.Gmi self.old (M.held mapper.old) (M.page_bytes mapper.old) }
        requires made { G.made self.old.gmi ≤ 2 ^ 61 }
        ensures { MixCall M.Mapper G.Gmi mapper.old self.old
            (MixCommand.Store of address piece.now) (done_by result) mapper.new self.new }
    {
        let actor = match numbered(&self.processes, of.0) {
            Some(process) => process.actor,
            None => return Err(Trouble::Refused(Refusal::NoProcess)),
        };
        self.gmi.store(actor, address, piece, mapper, chooser)
    }

    /// Evicts so many page frames, or as many as can be.
    pub fn page_out<M: Mapper, C: Chooser>(
        &mut self,
        count: u32,
        mapper: &mut M,
        chooser: &mut C,
    ) -> Result<(), Trouble>
    where
        G: Gmi<M, C>,
        requires some { 1 ≤ count }
        requires can { CanCall G.Gmi self.old (M.held mapper.old) (M.page_bytes mapper.old) }
        requires made { G.made self.old.gmi ≤ 2 ^ 61 }
        ensures { MixCall M.Mapper G.Gmi mapper.old self.old (MixCommand.PageOut count)
            (done_by result) mapper.new self.new }
    {
        self.gmi.page_out(count, mapper, chooser)
    }

    // Where a living process stands.
    fn place_of(&self, of: ProcId) -> Result<usize, Refusal>
        ensures found { IfOk result (λ place. (of.0 ≡ place + 1)
            × ((p : Process) × (slice_get self.now.processes.items place ≡ Some (Some p)))) }
        ensures nobody { OnErr result (numbered self.now.processes.items of.0 ≡ None) }
        ensures refusal { IfErr result (λ r. r ≡ NoProcess) }
    {
        match numbered(&self.processes, of.0) {
            Some(_) => Ok(of.0 as usize - 1),
            None => Err(Refusal::NoProcess),
        }
    }

    // How many pages of data a process has.
    fn data_pages(&self, place: usize) -> u64
        requires there { (p : Process) × (slice_get self.now.processes.items place ≡ Some (Some p))
            × (pages_in Data p.parts.items ≤ MOST_DATA) }
        ensures { (p : Process) → slice_get self.now.processes.items place ≡ Some (Some p)
            → result ≡ pages_in Data p.parts.items }
    {
        match &self.processes[place] {
            Some(process) => pages_in(Area::Data, &process.parts),
            None => 0,
        }
    }
}

// Maps a part into a process, behind what its area has.
fn map_into<G, M: Mapper, C: Chooser>(
    gmi: &mut G,
    process: &mut Process,
    part: Part,
) -> Result<(), Trouble>
where
    G: Gmi<M, C>,
    requires some { 1 ≤ part.pages }
    requires few { pages_in part.area process.old.parts.items ≤ 2 ^ 32 }
    requires valid { (told : Option Held) × G.valid gmi.old told }
    requires made { G.made gmi.old ≤ 2 ^ 62 }
    ensures { MapsInto G.Gmi gmi.old process.old part result gmi.new process.new }
{
    process.parts.reserve(1)?;
    let mapping = mapping_behind(&process.parts, part);
    gmi.map(process.actor, mapping)?;
    process.parts.push_reserved(part);
    Ok(())
}

// Takes a process out of the table, where it is alive.
fn take(processes: &mut [Option<Process>], of: ProcId) -> Option<Process>
    ensures taken { IfSome result (λ p. numbered processes.old of.0 ≡ Some p) }
    ensures gone { IfSome result (λ _. processes.new ≡ slice_set processes.old (of.0 - 1) None) }
    ensures nobody { IfNone result (numbered processes.old of.0 ≡ None) }
    ensures same { IfNone result (processes.new ≡ processes.old) }
{
    if of.0 == 0 || of.0 as usize > processes.len() {
        return None;
    }
    processes[of.0 as usize - 1].take()
}

// Whether an area of a process would be longer than one may be.
fn is_too_large(text_pages: u32, data_pages: u32, stack_pages: u32) -> bool
    ensures { result ≡ is_too_large text_pages data_pages stack_pages }
{
    text_pages > MOST_TEXT || data_pages > MOST_DATA || stack_pages > MOST_STACK
}

// What a segment's cache refuses is a bad image.
fn bad_image(trouble: Trouble) -> Trouble
    ensures { result ≡ as_bad_image trouble }
{
    match trouble {
        Trouble::Refused(_) => Trouble::Refused(Refusal::BadImage),
        trouble => trouble,
    }
}

// The cache of a segment among these.
fn cache_for(images: &[Image], seg: SegId) -> Option<CacheId>
    ensures { result ≡ option_map (λ i. i.cache) (image_for images.now seg.0) }
{
    for image in images {
        if image.seg == seg {
            return Some(image.cache);
        }
    }
    None
}

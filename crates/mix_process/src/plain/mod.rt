// The machine of processes, run plainly.
ghost use Rattle.std.specs.Prelude.{◌≡◌, ◌==◌, ℕ, ◌≤◌, List, All, length, map, option_map, Ok, Err, IfSome, IsSome, OnErr, OnOk};
ghost use Rattle.vm_ids.specs.Held.{Segments};
ghost use Rattle.vm_ids.specs.MixAsking.{IsMixWellFormed};
ghost use Rattle.vm_ids.specs.declared.numbers.TheConstants.{PAGE};
ghost use Rattle.vm_model.specs.Machine.{Page, numbered};
ghost use Rattle.mix_process.specs.Answering.{add_process, answer_of, exec_of, exit_of, fork_of, grow_of, load_of, put_process, store_of, with_image};
ghost use Rattle.mix_process.specs.Plain.{IsAnswered, IsRead, exec_ends};
ghost use Rattle.mix_process.specs.ProcessMachine.{ProcessMachine, image_in, image_of, start};

mod page;
mod process;

use crate::area::{MOST_DATA, MOST_STACK, MOST_TEXT};
use crate::process::may_write;
use page::{PlainPage, pages_from};
use process::PlainProcess;
use std::alloc::Global;
use std::marker::Model;
use vm_ids::{Answer, MixCommand, NoMemory, PAGE, Piece, ProcId, Refusal, Reply, SegId, Trouble};
use vm_model::numbered;

// What a segment held when a process was first to be made of it.
#[derive(Drop)]
struct PlainImage {
    seg: SegId,
    pages: Vec<PlainPage>,
}

impl Model for PlainImage {
    ghost Value = { ℕ × List Page };

    ghost view = { λ i. (i.seg.0, i.pages.items) };

    ghost invariant = { λ _. Unit {0} };
}

impl PlainImage {
    // Whether it is of this segment.
    fn is_of(&self, seg: SegId) -> bool
        ensures { result ≡ (self.now.0 == seg.0) }
    {
        self.seg.0 == seg.0
    }

    fn pages(&self) -> &[PlainPage]
        ensures { result.now ≡ self.now.1 }
    {
        &self.pages
    }
}

// The image of a segment among these.
fn image_in(images: &[PlainImage], seg: SegId) -> Option<&[PlainPage]>
    ensures { option_map (λ p. p.now) result ≡ image_in images.now seg.0 }
{
    for image in images {
        if image.is_of(seg) {
            return Some(image.pages());
        }
    }
    None
}

/// The machine of processes itself, run plainly: each process is its pages of bytes, and a fork
/// copies them all. It is the yardstick of processes over a manager. It is seen as the machine that
/// it is; it reaches no mapper and no manager.
#[derive(Drop)]
pub struct PlainProcesses {
    alloc: Global,
    // Processes stand at their number less 1.
    processes: Vec<Option<PlainProcess>>,
    images: Vec<PlainImage>,
}

impl Model for PlainProcesses {
    ghost Value = { ProcessMachine };

    ghost view = { λ m. record {
      page_bytes = PAGE;
      processes = m.processes.items;
      images = m.images.items;
    } };

    ghost invariant = { λ _. Unit {0} };
}

// An answer that refuses.
fn refused(refusal: Refusal) -> Answer
    ensures { result ≡ Err (Trouble.Refused refusal) }
{
    Err(Trouble::Refused(refusal))
}

impl PlainProcesses {
    /// No processes, of pages of 4,096 bytes.
    pub fn new(alloc: Global) -> PlainProcesses
        ensures { result ≡ start PAGE }
    {
        PlainProcesses {
            alloc,
            processes: Vec::new(alloc),
            images: Vec::new(alloc),
        }
    }

    /// Answers a command, where a segment that it reads has these pages of 4,096 bytes: that of an
    /// exec, or `None` where there is none. `NoMemory` where there is none for what is made, or
    /// 4,294,967,295 processes were made; then everything is as it was.
    pub fn answer(
        &mut self,
        command: &MixCommand,
        held: Option<&[Vec<u8>]>,
    ) -> Result<Answer, NoMemory>
        requires formed { IsMixWellFormed command.now }
        requires whole { IfSome held (λ pages. All (λ p. length p.items ≡ PAGE) pages.now) }
        ensures { (h : Segments) → IsRead command.now h (option_map
            (λ pages. map (λ p. p.items) pages.now) held.entry)
            → IsAnswered self.old (answer_of self.old command.now h) result self.new }
    {
        match command {
            MixCommand::Exec(seg, text, own, stack) => {
                self.exec(*seg, *text, *own, *stack, held)
            }
            MixCommand::Fork(of) => self.fork(*of),
            MixCommand::Exit(of) => Ok(self.exit(*of)),
            MixCommand::Grow(of, pages) => self.grow(*of, *pages),
            MixCommand::Load(of, address, length) => Ok(self.load(*of, *address, *length)),
            MixCommand::Store(of, address, piece) => self.store(*of, *address, piece),
            MixCommand::PageOut(_) => Ok(Ok(Reply::Done)),
        }
    }

    // One process more.
    fn add(&mut self, process: PlainProcess) -> Result<Answer, NoMemory>
        ensures { IsAnswered self.old (add_process self.old process) result self.new }
    {
        if self.processes.len() >= u32::MAX as usize {
            return Err(NoMemory);
        }
        self.processes.push(Some(process))?;
        Ok(Ok(Reply::Process(ProcId(self.processes.len() as u32))))
    }

    // The image of a segment that has none yet.
    fn open(&mut self, seg: SegId, held: Option<&[Vec<u8>]>) -> Result<(), NoMemory>
        requires { IfSome held (λ pages. All (λ p. length p.items ≡ PAGE) pages.now) }
        ensures ok { OnOk result (self.new ≡ with_image self.old seg.0
            (option_map (λ pages. map (λ p. p.items) pages.now) held.entry)) }
        ensures err { OnErr result (self.new ≡ self.old) }
    {
        match (image_in(&self.images, seg), held) {
            (None, Some(pages)) => {
                let pages = pages_from(self.alloc, pages)?;
                self.images.push(PlainImage { seg, pages })?;
                Ok(())
            }
            _ => Ok(()),
        }
    }

    // A process of the image of a segment, where it has one with pages enough.
    #[tactic(auto, unfolding(crate::specs::Answering::unless, crate::specs::Answering::with_some))]
    fn start_process(
        &mut self,
        seg: SegId,
        text_pages: u32,
        data_pages: u32,
        stack_pages: u32,
    ) -> Result<Answer, NoMemory>
        ensures { IsAnswered self.old (exec_ends self.old text_pages data_pages stack_pages
            (image_of self.old seg.0)) result self.new }
    {
        let Some(image) = image_in(&self.images, seg) else {
            return Ok(refused(Refusal::NoSegment));
        };
        if image.len() < text_pages as usize + data_pages as usize {
            return Ok(refused(Refusal::BadImage));
        }
        let process = PlainProcess::of_image(
            self.alloc,
            image,
            text_pages,
            data_pages,
            stack_pages,
        )?;
        self.add(process)
    }

    #[tactic(auto, unfolding(crate::specs::Answering::exec_of, crate::specs::Answering::unless))]
    fn exec(
        &mut self,
        seg: SegId,
        text_pages: u32,
        data_pages: u32,
        stack_pages: u32,
        held: Option<&[Vec<u8>]>,
    ) -> Result<Answer, NoMemory>
        requires { IfSome held (λ pages. All (λ p. length p.items ≡ PAGE) pages.now) }
        ensures { IsAnswered self.old (exec_of self.old seg.0 text_pages data_pages stack_pages
            (option_map (λ pages. map (λ p. p.items) pages.now) held.entry)) result self.new }
    {
        if text_pages > MOST_TEXT || data_pages > MOST_DATA || stack_pages > MOST_STACK {
            return Ok(refused(Refusal::TooLarge));
        }
        let before = self.images.len();
        self.open(seg, held)?;
        match self.start_process(seg, text_pages, data_pages, stack_pages) {
            Ok(answer) => Ok(answer),
            Err(NoMemory) => {
                self.images.truncate(before);
                Err(NoMemory)
            }
        }
    }

    // Another process stands in the place of this one, or none does.
    fn put(&mut self, of: ProcId, process: Option<PlainProcess>)
        requires { IsSome (numbered self.old.processes of.0) }
        ensures { self.new ≡ put_process self.old of.0 process }
    {
        self.processes[of.0 as usize - 1] = process;
    }

    #[tactic(auto, unfolding(crate::specs::Answering::fork_of, crate::specs::Answering::with_some))]
    fn fork(&mut self, of: ProcId) -> Result<Answer, NoMemory>
        ensures { IsAnswered self.old (fork_of self.old of.0) result self.new }
    {
        let child = match numbered(&self.processes, of.0) {
            Some(process) => process.copied(self.alloc)?,
            None => return Ok(refused(Refusal::NoProcess)),
        };
        self.add(child)
    }

    #[tactic(auto, unfolding(crate::specs::Answering::exit_of, crate::specs::Answering::with_some))]
    fn exit(&mut self, of: ProcId) -> Answer
        ensures { IsAnswered self.old (exit_of self.old of.0) (Ok result) self.new }
    {
        match numbered(&self.processes, of.0) {
            Some(_) => {}
            None => return refused(Refusal::NoProcess),
        }
        self.put(of, None);
        Ok(Reply::Done)
    }

    #[tactic(auto, unfolding(crate::specs::Answering::grow_of, crate::specs::Answering::with_some, crate::specs::Answering::unless))]
    fn grow(&mut self, of: ProcId, pages: u32) -> Result<Answer, NoMemory>
        ensures { IsAnswered self.old (grow_of self.old of.0 pages) result self.new }
    {
        let Some(process) = numbered(&self.processes, of.0) else {
            return Ok(refused(Refusal::NoProcess));
        };
        if process.is_too_long(pages) {
            return Ok(refused(Refusal::TooLarge));
        }
        let grown = process.grown(self.alloc, pages)?;
        self.put(of, Some(grown));
        Ok(Ok(Reply::Done))
    }

    #[tactic(auto, unfolding(crate::specs::Answering::load_of, crate::specs::Answering::with_ok))]
    fn load(&self, of: ProcId, address: u64, bytes: u8) -> Answer
        requires some { 1 ≤ bytes }
        requires few { bytes ≤ 64 }
        ensures { IsAnswered self.now (load_of self.now of.0 address bytes) (Ok result) self.now }
    {
        let Some(process) = numbered(&self.processes, of.0) else {
            return refused(Refusal::NoProcess);
        };
        match process.spot(address, bytes) {
            Ok(at) => Ok(Reply::Bytes(process.bytes_at(at, bytes))),
            Err(refusal) => refused(refusal),
        }
    }

    #[tactic(auto, unfolding(crate::specs::Answering::store_of, crate::specs::Answering::with_ok, crate::specs::Answering::unless))]
    fn store(&mut self, of: ProcId, address: u64, piece: &Piece) -> Result<Answer, NoMemory>
        ensures { IsAnswered self.old (store_of self.old of.0 address piece.now) result self.new }
    {
        let bytes = piece.as_slice();
        let Some(process) = numbered(&self.processes, of.0) else {
            return Ok(refused(Refusal::NoProcess));
        };
        let at = match process.spot(address, bytes.len() as u8) {
            Ok(at) => at,
            Err(refusal) => return Ok(refused(refusal)),
        };
        if !may_write(at.area) {
            return Ok(refused(Refusal::Protection));
        }
        let mut written = process.copied(self.alloc)?;
        written.write(at, bytes);
        self.put(of, Some(written));
        Ok(Ok(Reply::Done))
    }
}

// The parts of a process are made, filled, copied and mapped.
ghost use Rattle.std.specs.Prelude.{◌≡◌, ℕ, Option, ◌≤◌, ◌<◌, ◌+◌, ◌^◌, length, slice_get, IfSome};
ghost use Rattle.vm_ids.specs.Held.{Held};
ghost use Rattle.vm_model.specs.Machine.{numbered};
ghost use Rattle.mix_process.specs.Adding.{FillsAndMaps, HasSpare, IsAdded, IsFilled, IsSourceOf, MapsPart, MayAdd, MayFill, MayMap};
ghost use Rattle.mix_process.specs.Copying.{IsCopied, IsInherited, MayCopy, MayInherit};
ghost use Rattle.mix_process.specs.declared.process.Process.{Process};
ghost use Rattle.mix_process.specs.Tying.{CanCall};

use crate::Area;
use crate::mix::{Mix, map_into};
use crate::process::{Part, Process, may_write};
use gmi_calls::Gmi;
use vm_ids::{CacheId, PageNo, Span, Trouble};
use vm_model::numbered;
use vm_port::{Chooser, Mapper};

impl<G> Mix<G> {
    // The last process gets what another has: the same text, and copies of the rest.
    pub(super) fn copy_parts<M: Mapper, C: Chooser>(
        &mut self,
        parent: usize,
        mapper: &mut M,
        chooser: &mut C,
    ) -> Result<(), Trouble>
    where
        G: Gmi<M, C>,
        requires can { CanCall G.Gmi self.old (M.held mapper.old) (M.page_bytes mapper.old) }
        requires may { (process : Process) × MayInherit self.old.processes.items parent process }
        requires made { G.made self.old.gmi ≤ 2 ^ 61 + 2 ^ 29 }
        ensures { (process : Process) (may : MayInherit self.old.processes.items parent process)
            → IsInherited M.Mapper G.Gmi mapper.old self.old may.front process result mapper.new
            self.new }
    {
        let place = self.processes.len() - 1;
        let mut next = 0;
        while let Some(part) = self.part_of(parent, next) {
            self.copy_part(place, part, mapper, chooser)?;
            next += 1;
        }
        Ok(())
    }

    // A process gets what this part of another has.
    fn copy_part<M: Mapper, C: Chooser>(
        &mut self,
        place: usize,
        part: Part,
        mapper: &mut M,
        chooser: &mut C,
    ) -> Result<(), Trouble>
    where
        G: Gmi<M, C>,
        requires can { CanCall G.Gmi self.old (M.held mapper.old) (M.page_bytes mapper.old) }
        requires may { (process : Process) × MayCopy (G.machine self.old.gmi (M.held mapper.old))
            self.old.processes.items place process part }
        requires made { G.made self.old.gmi ≤ 2 ^ 61 + 2 ^ 30 }
        ensures { (process : Process) → MayCopy (G.machine self.old.gmi (M.held mapper.old))
            self.old.processes.items place process part
            → IsCopied M.Mapper G.Gmi mapper.old self.old place process part result mapper.new
            self.new }
    {
        if may_write(part.area) {
            let source = Some((part.cache, PageNo(0)));
            self.add_own(place, part.area, part.pages, source, mapper, chooser)
        } else {
            self.map_part(place, part)
        }
    }

    // A part of a process.
    fn part_of(&self, place: usize, part: usize) -> Option<Part>
        requires { place < length self.now.processes.items }
        ensures { IfSome (numbered self.now.processes.items (place + 1))
            (λ p. result ≡ slice_get p.parts.items part) }
    {
        match &self.processes[place] {
            Some(process) => process.parts.get(part).copied(),
            None => None,
        }
    }

    // A process gets so many more pages of its own, copied from where is told, or zeros.
    pub(super) fn add_own<M: Mapper, C: Chooser>(
        &mut self,
        place: usize,
        area: Area,
        pages: u32,
        source: Option<(CacheId, PageNo)>,
        mapper: &mut M,
        chooser: &mut C,
    ) -> Result<(), Trouble>
    where
        G: Gmi<M, C>,
        requires can { CanCall G.Gmi self.old (M.held mapper.old) (M.page_bytes mapper.old) }
        requires may { (process : Process) × MayAdd (G.machine self.old.gmi (M.held mapper.old))
            self.old.processes.items place process area pages source }
        requires made { G.made self.old.gmi ≤ 2 ^ 61 + 2 ^ 30 }
        ensures { (process : Process) → MayAdd (G.machine self.old.gmi (M.held mapper.old))
            self.old.processes.items place process area pages source
            → IsAdded M.Mapper G.Gmi mapper.old self.old place process area pages source result
            mapper.new self.new }
    {
        let cache = self.gmi.make_temp(pages)?;
        let part = Part { area, cache, pages };
        match self.fill_and_map(place, part, source, mapper, chooser) {
            Ok(()) => Ok(()),
            Err(trouble) => {
                let _ = self.gmi.destroy(cache, mapper, chooser);
                Err(trouble)
            }
        }
    }

    // Copies pages into a spare cache, where a source is told, and maps it.
    fn fill_and_map<M: Mapper, C: Chooser>(
        &mut self,
        place: usize,
        part: Part,
        source: Option<(CacheId, PageNo)>,
        mapper: &mut M,
        chooser: &mut C,
    ) -> Result<(), Trouble>
    where
        G: Gmi<M, C>,
        requires may { (process : Process) × MayFill M.Mapper G.Gmi mapper.old self.old place
            process part source }
        requires made { G.made self.old.gmi ≤ 2 ^ 61 + 2 ^ 31 }
        ensures { (process : Process) → MayFill M.Mapper G.Gmi mapper.old self.old place process
            part source
            → FillsAndMaps M.Mapper G.Gmi mapper.old self.old place process part source result
            mapper.new self.new }
    {
        self.fill(part, source, mapper, chooser)?;
        self.map_part(place, part)
    }

    // Copies pages into a spare cache, where a source is told.
    fn fill<M: Mapper, C: Chooser>(
        &mut self,
        part: Part,
        source: Option<(CacheId, PageNo)>,
        mapper: &mut M,
        chooser: &mut C,
    ) -> Result<(), Trouble>
    where
        G: Gmi<M, C>,
        requires has { HasSpare M.Mapper G.Gmi mapper.old self.old part }
        requires source { IsSourceOf (G.machine self.old.gmi (M.held mapper.old)) part source }
        requires made { G.made self.old.gmi ≤ 2 ^ 61 + 2 ^ 31 }
        ensures { IsFilled M.Mapper G.Gmi mapper.old self.old part source result mapper.new
            self.new }
    {
        let Some((from, from_page)) = source else {
            return Ok(());
        };
        let span = Span {
            from,
            from_page,
            to: part.cache,
            to_page: PageNo(0),
            pages: part.pages,
        };
        self.gmi.copy_pages(span, mapper, chooser)
    }

    // Maps a part into a process, behind what its area has.
    pub(super) fn map_part<M: Mapper, C: Chooser>(
        &mut self,
        place: usize,
        part: Part,
    ) -> Result<(), Trouble>
    where
        G: Gmi<M, C>,
        requires may { (told : Option Held) × (page_bytes : Option ℕ) × (process : Process)
            × MayMap G.Gmi told page_bytes self.old place process part }
        requires made { G.made self.old.gmi ≤ 2 ^ 62 }
        ensures { (told : Option Held) (page_bytes : Option ℕ) (process : Process)
            → MayMap G.Gmi told page_bytes self.old place process part
            → MapsPart G.Gmi told page_bytes self.old place process part result self.new }
    {
        match &mut self.processes[place] {
            Some(process) => map_into(&mut self.gmi, process, part),
            None => unreachable!(),
        }
    }
}

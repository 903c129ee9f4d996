// The page forest that follows the replies to a script, whoever gave them.
use crate::page_forest::PageForest;
use actor_script::{read_line, read_number};
use std::alloc::Global;
use vm_ids::{
    ActorId, CacheId, Command, Extent, Mapping, NoMemory, PAGE, PageNo, RegionId, SMALL_COPY, Span,
};

// A cache is made of so many pages, for a segment or without one.
#[derive(Clone, Copy)]
struct Made {
    cache: CacheId,
    pages: u32,
    named: bool,
}

// A region of an actor that was made.
#[derive(Clone, Copy)]
struct Mapped {
    region: RegionId,
    actor: ActorId,
    mapping: Mapping,
}

// The page forest, and what the rules of stores, locks and saves ask of caches and regions.
#[derive(Drop)]
pub(super) struct Follower {
    forest: PageForest,
    caches: Vec<Made>,
    regions: Vec<Mapped>,
    // A segment has so many pages.
    segment: u32,
}

// The number at the end of a text that begins with this.
fn number_behind(text: &str, front: &str) -> Option<u32> {
    read_number(text.strip_prefix(front)?.as_bytes())
}

// These pages of a cache.
fn pages_of(extent: &Extent) -> std::ops::Range<u32> {
    extent.first.0..extent.first.0.saturating_add(extent.pages)
}

impl Follower {
    // Before the first line, where each segment has so many pages.
    pub fn new(alloc: Global, segment: u32) -> Follower {
        Follower {
            forest: PageForest::new(alloc),
            caches: Vec::new(alloc),
            regions: Vec::new(alloc),
            segment,
        }
    }

    // What a line tells of the forest, where it asks for that.
    pub fn tells(&self, alloc: Global, line: &str) -> Result<Option<String>, NoMemory> {
        match read_line(line.as_bytes()) {
            Ok(Command::Chain(cache, page)) => Ok(Some(self.forest.chain(alloc, cache, page)?)),
            Ok(Command::Stat) => Ok(Some(self.forest.stat(alloc)?)),
            _ => Ok(None),
        }
    }

    // The reply to a line, without the line's number. Where a save failed, those before it are
    // done; where a page of a lock failed, the pages before it have their own. Any other fault
    // changes nothing, and no refusal does.
    pub fn follow(&mut self, line: &str, reply: &str) -> Result<(), NoMemory> {
        let Ok(command) = read_line(line.as_bytes()) else {
            return Ok(());
        };
        if let Some(saves) = number_behind(reply, "fault mapper save ") {
            return self.save_for(&command, saves);
        }
        if let Some(page) = number_behind(reply, "fault mapper page ") {
            if let Command::Lock(region) = command {
                self.lock(region, page);
            }
            return Ok(());
        }
        if reply == "ok" {
            return self.done(&command);
        }
        if let Some(number) = number_behind(reply, "ok c") {
            return self.made(&command, CacheId(number));
        }
        if let Some(number) = number_behind(reply, "ok r") {
            return self.mapped(&command, RegionId(number));
        }
        Ok(())
    }

    fn made(&mut self, command: &Command, cache: CacheId) -> Result<(), NoMemory> {
        let (pages, named) = match command {
            Command::MakeTemp(pages) => (*pages, false),
            _ => (self.segment, true),
        };
        self.caches.push(Made {
            cache,
            pages,
            named,
        })?;
        for page in 0..pages {
            self.forest.make(cache, page)?;
        }
        Ok(())
    }

    fn mapped(&mut self, command: &Command, region: RegionId) -> Result<(), NoMemory> {
        match command {
            Command::Map(actor, mapping) => {
                self.regions.push(Mapped {
                    region,
                    actor: *actor,
                    mapping: *mapping,
                })?;
            }
            Command::Split(old, pages) => self.split(*old, *pages, region)?,
            _ => (),
        }
        Ok(())
    }

    // A region keeps so many pages, and a new one has the others.
    fn split(&mut self, old: RegionId, pages: u32, region: RegionId) -> Result<(), NoMemory> {
        let Some(mapped) = self.regions.iter_mut().find(|mapped| mapped.region == old) else {
            return Ok(());
        };
        let Mapping {
            extent,
            address,
            prot,
        } = mapped.mapping;
        mapped.mapping.extent.pages = pages;
        let rest = Extent {
            cache: extent.cache,
            first: PageNo(extent.first.0.saturating_add(pages)),
            pages: extent.pages.saturating_sub(pages),
        };
        let actor = mapped.actor;
        let mapping = Mapping {
            extent: rest,
            address: address.saturating_add(u64::from(pages) * PAGE as u64),
            prot,
        };
        self.regions.push(Mapped {
            region,
            actor,
            mapping,
        })?;
        Ok(())
    }

    fn done(&mut self, command: &Command) -> Result<(), NoMemory> {
        self.save_for(command, u32::MAX)?;
        match command {
            Command::Copy(span) => self.copy(span)?,
            Command::Move(span) => self.move_pages(span)?,
            Command::Invalidate(extent) => {
                for page in pages_of(extent) {
                    self.forest.detach(extent.cache, page, true)?;
                }
                self.forest.settle();
            }
            Command::Destroy(cache) => {
                for page in pages_of(&self.whole(*cache)) {
                    self.forest.retire(self.forest.node_of(*cache, page));
                }
                self.forest.settle();
            }
            Command::Store(actor, address, _) => self.store(*actor, *address)?,
            Command::Lock(region) => self.lock(*region, u32::MAX),
            Command::Unmap(region) => {
                let place = self.regions.iter().position(|m| m.region == *region);
                if let Some(place) = place {
                    self.regions.remove(place);
                }
            }
            _ => (),
        }
        Ok(())
    }

    // All pages of a cache.
    fn whole(&self, cache: CacheId) -> Extent {
        let made = self.caches.iter().find(|made| made.cache == cache);
        Extent {
            cache,
            first: PageNo(0),
            pages: made.map_or(0, |made| made.pages),
        }
    }

    fn is_named(&self, cache: CacheId) -> bool {
        self.caches
            .iter()
            .any(|made| made.cache == cache && made.named)
    }

    // The first saves of a command, so many at most.
    fn save_for(&mut self, command: &Command, most: u32) -> Result<(), NoMemory> {
        let extent = match command {
            Command::Copy(span) | Command::Move(span) => Extent {
                cache: span.to,
                first: span.to_page,
                pages: span.pages,
            },
            Command::Invalidate(extent) => *extent,
            Command::Destroy(cache) => self.whole(*cache),
            _ => return Ok(()),
        };
        if self.is_named(extent.cache) {
            self.save(&extent, most)?;
        }
        Ok(())
    }

    // Each page of these that has a page of its own and an heir is saved, so many at most.
    fn save(&mut self, extent: &Extent, most: u32) -> Result<(), NoMemory> {
        let mut left = most;
        for page in pages_of(extent) {
            let node = self.forest.node_of(extent.cache, page);
            if left > 0 && self.forest.owns(node) && self.forest.heir_gets(node)? {
                left -= 1;
            }
        }
        Ok(())
    }

    fn copy(&mut self, span: &Span) -> Result<(), NoMemory> {
        for i in 0..span.pages {
            let to = span.to_page.0.saturating_add(i);
            let from = span.from_page.0.saturating_add(i);
            let node = self.forest.detach(span.to, to, false)?;
            let source = self.forest.node_of(span.from, from);
            if span.pages > SMALL_COPY {
                self.forest.link(node, source)?;
            } else {
                self.forest.stub(node, source)?;
            }
        }
        self.forest.settle();
        Ok(())
    }

    fn move_pages(&mut self, span: &Span) -> Result<(), NoMemory> {
        for i in 0..span.pages {
            let from = (span.from, span.from_page.0.saturating_add(i));
            let to = (span.to, span.to_page.0.saturating_add(i));
            self.forest.move_page(from, to)?;
        }
        self.forest.settle();
        Ok(())
    }

    // The node of the page under an address gets a page of its own, and then its heir one.
    fn store(&mut self, actor: ActorId, address: u64) -> Result<(), NoMemory> {
        for mapped in &self.regions {
            let Mapping {
                extent,
                address: first,
                ..
            } = mapped.mapping;
            let behind = u32::try_from(address.wrapping_sub(first) / PAGE as u64);
            let behind = behind.unwrap_or(u32::MAX);
            if mapped.actor == actor && behind < extent.pages {
                let page = extent.first.0.saturating_add(behind);
                let node = self.forest.node_of(extent.cache, page);
                self.forest.own(node);
                self.forest.heir_gets(node)?;
            }
        }
        Ok(())
    }

    // The pages of a region before this one get pages of their own.
    fn lock(&mut self, region: RegionId, before: u32) {
        let mapped = self.regions.iter().find(|m| m.region == region);
        let Some(Mapped { mapping, .. }) = mapped else {
            return;
        };
        let extent = mapping.extent;
        for page in pages_of(&extent) {
            if page < before {
                self.forest.own(self.forest.node_of(extent.cache, page));
            }
        }
    }
}

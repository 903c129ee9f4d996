// Commands to the manager, drawn one after the other.
ghost use Rattle.std.specs.Prelude.{◌≤◌, ◌<◌, IfOk};
ghost use Rattle.vm_model.specs.Asking.{IsWellFormed};

use drawn_numbers::Draws;
use std::test::Fail;
use vm_ids::{
    ActorId, Answer, CacheId, Command, Extent, Mapping, PageNo, Piece, Prot, RegionId, Reply,
    SegId, Span,
};

// Each segment has so many pages.
pub(crate) const PAGES: u32 = 12;

// Each page has so many bytes.
pub(crate) const PAGE: u32 = 4;

// The longest caches of a history have so many pages.
pub(crate) const LONG: u32 = 30;

// Four caches of any of these lengths can be mapped, side by side.
const PLACES: u32 = 4;

// This actor looks, and others act.
const WATCHER: ActorId = ActorId(1);

// One that acts, or none where it ended, and its region that was told last.
#[derive(Clone, Copy)]
struct Acting {
    actor: Option<ActorId>,
    region: RegionId,
}

// Drawn commands. Now and then all pages of all caches are looked at:
// each cache is mapped, loaded page by page, and unmapped.
#[derive(Drop)]
pub(crate) struct Script {
    draws: Draws,
    // Whether all caches are long and temporary, and copied more often than stored to.
    long: bool,
    caches: u32,
    // The caches that the segments name, or named last.
    pub(crate) named: [CacheId; 2],
    // The one whose turn it is, and the other one.
    acting: Acting,
    waiting: Acting,
    // So many commands come between two looks, and so many are left before the next.
    apart: u32,
    left: u32,
    // The cache that is looked at, with those below it still to come, the step of the look, and the
    // region through which it is seen.
    seen: u32,
    step: u32,
    view: RegionId,
}

impl Script {
    pub(crate) fn new(seed: u64, apart: u32, long: bool) -> Script {
        let nobody = Acting {
            actor: None,
            region: RegionId(0),
        };
        Script {
            draws: Draws::new(seed),
            long,
            caches: 0,
            named: [CacheId(0); 2],
            acting: nobody,
            waiting: nobody,
            apart,
            left: apart,
            seen: 0,
            step: 0,
            view: RegionId(0),
        }
    }

    // A number below this one.
    fn below(&mut self, limit: u32) -> u32
        requires { 0 < limit }
        ensures { result < limit }
    {
        self.draws.below(limit)
    }

    // One of the last caches that were made.
    fn recent(&mut self, last: u32) -> CacheId
        requires { 0 < last }
    {
        CacheId(self.caches.saturating_sub(self.below(last)))
    }

    // One that a segment names.
    fn of_segment(&mut self) -> CacheId {
        self.named[self.below(2) as usize]
    }

    fn cache(&mut self) -> CacheId {
        match self.below(3) {
            0 if !self.long => self.of_segment(),
            _ => self.recent(6),
        }
    }

    // The pages of a cache, or of one that is still to be made. Eight are copied by stub links,
    // more by tree links.
    fn pages_of(&self, cache: CacheId) -> u32
        ensures least { 1 ≤ result }
        ensures most { result ≤ 30 }
    {
        if self.long {
            return LONG;
        }
        if is_one_of(&self.named, cache) {
            return PAGES;
        }
        match cache.0 % 6 {
            0 => 8,
            1 => 9,
            2 => 12,
            3 => 1,
            _ => LONG,
        }
    }

    // A number of pages, of so many: often all of them, and now and then one more than there are.
    fn count(&mut self, most: u32) -> u32
        requires least { 1 ≤ most }
        requires most { most ≤ 30 }
        ensures { 1 ≤ result }
    {
        match self.below(16) {
            0..=3 => most,
            4 => most + 1,
            _ => 1 + self.below(most),
        }
    }

    // A page of a cache that so many pages begin at, or the first where there are fewer.
    fn first(&mut self, cache: CacheId, pages: u32) -> PageNo {
        let last = self.pages_of(cache).saturating_sub(pages);
        PageNo(self.below(last + 1))
    }

    // Pages of two caches.
    fn span(&mut self) -> Span
        ensures { 1 ≤ result.pages }
    {
        let (from, to) = (self.cache(), self.cache());
        let pages = self.count(self.pages_of(from).min(self.pages_of(to)));
        Span {
            from,
            from_page: self.first(from, pages),
            to,
            to_page: self.first(to, pages),
            pages,
        }
    }

    // Pages of one, which mostly is of a segment.
    fn extent(&mut self) -> Extent
        ensures { 1 ≤ result.pages }
    {
        let cache = match self.below(4) {
            0 => self.cache(),
            _ => self.of_segment(),
        };
        let pages = self.count(self.pages_of(cache));
        Extent {
            cache,
            first: self.first(cache, pages),
            pages,
        }
    }

    // One at a place, the more often the nearer to where the place begins, as short caches may be
    // there.
    fn address(&mut self) -> u64 {
        let place = self.below(PLACES);
        let bytes = (1 + self.below(LONG)) * PAGE;
        (place * LONG * PAGE + self.below(bytes)) as u64
    }

    // Two pages of one at most, anywhere.
    fn few(&mut self) -> Mapping
        ensures { 1 ≤ result.extent.pages }
    {
        let cache = self.cache();
        let pages = 1 + self.below(2);
        Mapping {
            extent: Extent {
                cache,
                first: self.first(cache, pages),
                pages,
            },
            address: (self.below(PLACES * LONG) * PAGE) as u64,
            prot: self.prot(),
        }
    }

    // A whole one at an address.
    fn whole(&self, cache: CacheId, address: u64, prot: Prot) -> Mapping
        ensures { 1 ≤ result.extent.pages }
    {
        Mapping {
            extent: Extent {
                cache,
                first: PageNo(0),
                pages: self.pages_of(cache),
            },
            address,
            prot,
        }
    }

    fn prot(&mut self) -> Prot {
        Prot {
            write: self.below(8) > 0,
        }
    }

    // Now and then it is the other one's turn.
    fn take_turns(&mut self) {
        if self.below(4) == 0 {
            let waiting = self.acting;
            self.acting = self.waiting;
            self.waiting = waiting;
        }
    }

    // A number of a kind of commands. Where all caches are long, none is of a segment, and most
    // stores give way to copies and moves.
    fn kind(&mut self) -> u32 {
        let kind = self.below(45);
        match kind {
            2..=3 if self.long => 0,
            4 if self.long => 5,
            17..=19 if self.long => 7,
            20..=21 if self.long => 11,
            _ => kind,
        }
    }

    // A command. An actor that ended is followed by the next.
    fn command(&mut self) -> Result<Command, Fail>
        ensures { IfOk result (λ c. IsWellFormed c) }
    {
        self.take_turns();
        let Acting { actor, region } = self.acting;
        let Some(actor) = actor else {
            return Ok(Command::MakeActor);
        };
        Ok(match self.kind() {
            0..=1 => {
                let next = CacheId(self.caches.saturating_add(1));
                Command::MakeTemp(self.pages_of(next))
            }
            2..=3 => Command::OpenSegment(SegId(1 + self.below(2))),
            4 => Command::Destroy(self.of_segment()),
            5..=6 => Command::Destroy(self.recent(8)),
            7..=10 => Command::Copy(self.span()),
            11..=12 => Command::Move(self.span()),
            13..=14 => {
                let cache = self.cache();
                let prot = self.prot();
                Command::Map(actor, self.whole(cache, place_of(cache), prot))
            }
            15 => Command::Map(actor, self.few()),
            16 => Command::Unmap(region),
            17..=22 => {
                let bytes = [self.below(256) as u8, self.below(256) as u8];
                let piece = Piece::new(&bytes).ok_or("no piece")?;
                Command::Store(actor, self.address(), piece)
            }
            23..=26 => Command::Load(actor, self.address(), 1),
            27 => Command::Sync(self.extent()),
            28 => Command::Flush(self.extent()),
            29 => Command::Invalidate(self.extent()),
            30..=31 => Command::PageOut(1 + self.below(3)),
            32 => Command::Split(region, 1 + self.below(PAGES)),
            33 => Command::Protect(region, self.prot()),
            34 => Command::Status(region),
            35..=38 => Command::Find(actor, self.address()),
            39..=40 => Command::Lock(region),
            41..=43 => Command::Unlock(region),
            _ => Command::ExitActor(actor),
        })
    }

    // The next step of the look at a cache.
    fn look(&mut self) -> Command
        ensures { IsWellFormed result }
    {
        let step = self.step;
        self.step = step.saturating_add(1);
        if step == 0 {
            let prot = Prot { write: false };
            return Command::Map(WATCHER, self.whole(CacheId(self.seen), 0, prot));
        }
        if step <= self.pages_of(CacheId(self.seen)) {
            let address = (step - 1) * PAGE;
            return Command::Load(WATCHER, address as u64, PAGE as u8);
        }
        self.seen = self.seen.saturating_sub(1);
        self.step = 0;
        Command::Unmap(self.view)
    }

    pub(crate) fn next(&mut self) -> Result<Command, Fail>
        ensures { IfOk result (λ c. IsWellFormed c) }
    {
        if self.seen > 0 {
            return Ok(self.look());
        }
        if self.left > 0 {
            self.left -= 1;
            return self.command();
        }
        self.left = self.apart;
        self.seen = self.caches;
        Ok(Command::Stat)
    }

    // What was made or found; and there is no look at a cache that isn't there.
    pub(crate) fn hear(&mut self, command: &Command, answer: &Answer) {
        match (command, answer) {
            (Command::OpenSegment(seg), Ok(Reply::Cache(cache))) => {
                self.caches = cache.0;
                put(&mut self.named, seg.0.saturating_sub(1) as usize, *cache);
            }
            (_, Ok(Reply::Cache(cache))) => self.caches = cache.0,
            (_, Ok(Reply::Actor(actor))) => self.acting.actor = Some(*actor),
            (Command::ExitActor(_), Ok(_)) => self.acting.actor = None,
            (_, Ok(Reply::Region(region))) => {
                if self.step > 0 {
                    self.view = *region;
                } else {
                    self.acting.region = *region;
                }
            }
            (_, Err(_)) if self.step > 0 => {
                self.seen = self.seen.saturating_sub(1);
                self.step = 0;
            }
            _ => {}
        }
    }
}

// The address at which a whole cache is mapped.
fn place_of(cache: CacheId) -> u64 {
    (cache.0 % PLACES * LONG * PAGE) as u64
}

// Puts one in its place, where there is such a place.
fn put<T: Copy>(all: &mut [T], place: usize, one: T) {
    if place < all.len() {
        all[place] = one;
    }
}

// Whether a segment named the cache last.
pub(crate) fn is_one_of(named: &[CacheId; 2], cache: CacheId) -> bool {
    named[0] == cache || named[1] == cache
}

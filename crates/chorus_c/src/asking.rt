// What C asks for.
ghost use Rattle.std.specs.Prelude.{◌≡◌, IfSome};
ghost use Rattle.vm_model.specs.Asking.{IsWellFormed};
ghost use Rattle.chorus_c.specs.Exchanging.{asked_by, command_of, counted, mapping_in, span_in};

use crate::exchange::{CALLS, Call, Exchange};
use vm_ids::{ActorId, CacheId, Command, Extent, Mapping, PageNo, Piece, Prot, RegionId, Span};

// A command over so many pages or frames, at least one.
fn counted(pages: u32, command: Command) -> Option<Command>
    ensures { result ≡ counted pages command }
{
    if pages == 0 { None } else { Some(command) }
}

fn span_in(exchange: &Exchange) -> Span
    ensures { result ≡ span_in exchange.now }
{
    Span {
        from: CacheId(exchange.cache),
        from_page: PageNo(exchange.page),
        to: CacheId(exchange.to_cache),
        to_page: PageNo(exchange.to_page),
        pages: exchange.pages,
    }
}

fn mapping_in(exchange: &Exchange) -> Mapping
    ensures { result ≡ mapping_in exchange.now }
{
    Mapping {
        extent: Extent {
            cache: CacheId(exchange.cache),
            first: PageNo(exchange.page),
            pages: exchange.pages,
        },
        address: exchange.address,
        prot: Prot {
            write: exchange.write != 0,
        },
    }
}

// The load of so many bytes, 1 to 64.
fn load_in(exchange: &Exchange) -> Option<Command>
    ensures { result ≡ asked_by exchange.now Call.Load }
{
    if exchange.length == 0 || exchange.length > 64 {
        return None;
    }
    Some(Command::Load(
        ActorId(exchange.actor),
        exchange.address,
        exchange.length as u8,
    ))
}

// The store of so many bytes, 1 to 64.
fn store_in(exchange: &Exchange) -> Option<Command>
    ensures { result ≡ asked_by exchange.now Call.Store }
{
    if exchange.length == 0 || exchange.length > 64 {
        return None;
    }
    match Piece::front(exchange.bytes, exchange.length as usize) {
        Some(piece) => Some(Command::Store(ActorId(exchange.actor), exchange.address, piece)),
        None => None,
    }
}

// The command that a call asks for.
fn asked(exchange: &Exchange, call: Call) -> Option<Command>
    ensures { result ≡ asked_by exchange.now call }
{
    let actor = ActorId(exchange.actor);
    let cache = CacheId(exchange.cache);
    let region = RegionId(exchange.region);
    let pages = exchange.pages;
    match call {
        Call::Actor => Some(Command::MakeActor),
        Call::Exit => Some(Command::ExitActor(actor)),
        Call::Temp => counted(pages, Command::MakeTemp(pages)),
        Call::Destroy => Some(Command::Destroy(cache)),
        Call::Copy => counted(pages, Command::Copy(span_in(exchange))),
        Call::Move => counted(pages, Command::Move(span_in(exchange))),
        Call::Map => counted(pages, Command::Map(actor, mapping_in(exchange))),
        Call::Split => counted(pages, Command::Split(region, pages)),
        Call::Protect => Some(Command::Protect(
            region,
            Prot {
                write: exchange.write != 0,
            },
        )),
        Call::Lock => Some(Command::Lock(region)),
        Call::Unlock => Some(Command::Unlock(region)),
        Call::Unmap => Some(Command::Unmap(region)),
        Call::Find => Some(Command::Find(actor, exchange.address)),
        Call::Status => Some(Command::Status(region)),
        Call::Load => load_in(exchange),
        Call::Store => store_in(exchange),
        Call::PageOut => counted(pages, Command::PageOut(pages)),
        Call::Stat => Some(Command::Stat),
    }
}

/// The command that an exchange asks for: `None` where its call has no number, or a count is out of
/// range.
pub fn command_in(exchange: &Exchange) -> Option<Command>
    ensures asked { result ≡ command_of exchange.now }
    ensures formed { IfSome result IsWellFormed }
{
    match CALLS.get(exchange.call as usize) {
        Some(call) => asked(exchange, *call),
        None => None,
    }
}

// What C is told.
ghost use Rattle.std.specs.Prelude.{◌≡◌, ◌++◌, ◌≤◌, drop, length};
ghost use Rattle.chorus_c.specs.Exchanging.{fault_number, flag, with_reply};

use crate::exchange::Exchange;
use vm_ids::{FaultAt, Piece, RegionStatus, Reply};

/// The number of a fault.
pub fn fault_number(at: FaultAt) -> u32
    ensures { result ≡ fault_number at }
{
    match at {
        FaultAt::Opening => 101,
        FaultAt::Access(_) => 102,
        FaultAt::Save(_) => 103,
        FaultAt::Page(_) => 104,
        FaultAt::Victim => 105,
    }
}

fn flag(is: bool) -> u32
    ensures { result ≡ flag is }
{
    if is { 1 } else { 0 }
}

// The bytes stand in front.
fn put_bytes(piece: &Piece, into: &mut [u8; 64])
    ensures { into.new ≡ piece.now ++ drop (length piece.now) into.old }
{
    let bytes = piece.as_slice();
    into[..bytes.len()].copy_from_slice(bytes);
}

fn put_status(status: &RegionStatus, exchange: &mut Exchange)
    ensures { exchange.new ≡ with_reply exchange.old (Reply.Status status.now) }
{
    exchange.actor = status.actor.0;
    exchange.cache = status.mapping.extent.cache.0;
    exchange.page = status.mapping.extent.first.0;
    exchange.pages = status.mapping.extent.pages;
    exchange.address = status.mapping.address;
    exchange.write = flag(status.mapping.prot.write);
    exchange.locked = flag(status.locked);
}

/// Tells a reply.
pub fn put_reply(reply: &Reply, exchange: &mut Exchange)
    ensures { exchange.new ≡ with_reply exchange.old reply.now }
{
    match reply {
        Reply::Actor(actor) => exchange.actor = actor.0,
        Reply::Cache(cache) => exchange.cache = cache.0,
        Reply::Region(region) => exchange.region = region.0,
        Reply::Bytes(piece) => put_bytes(piece, &mut exchange.bytes),
        Reply::Status(status) => put_status(status, exchange),
        Reply::Stat(counts) => {
            exchange.live = counts.live;
            exchange.working = counts.working;
            exchange.copies = counts.copies;
        }
        Reply::Done | Reply::Chain(_) | Reply::Process(_) | Reply::Port(_) => {}
    }
}

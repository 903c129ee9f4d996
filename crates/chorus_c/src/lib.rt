//! The manager for C: three functions of a static library, over which `library/chorus.h` has one for
//! each command.
//!
//! A [`Chorus`](chorus::Chorus) is the demand-paged manager of `pvm_core` with swap slots in memory
//! and the clock. C gives the room for it, holds it there, and tells what it wants in an
//! [`Exchange`](exchange::Exchange). What one of the functions leaves in memory is what the next
//! asks for. They alone take raw pointers; what they call is safe, and `serving` has the contract of
//! a call. The crate stands on the manager and the crates of the edge; no crate can stand on it.
#![tactic(auto)]

ghost use Rattle.std.specs.Prelude.{◌≡◌};
ghost use Rattle.std.specs.Mem.{type_size};
ghost use types.Logic.{sem};
ghost use Rattle.chorus_c.specs.Handed.{exchange_at, handle_at, room_for_handle};
ghost use Rattle.chorus_c.specs.Serving.{Begun, Served};
ghost use Rattle.chorus_c.specs.contracts.handle.Handle.{the_row as handle_row};
ghost use Rattle.chorus_c.specs.declared.exchange.Exchange.{Exchange as Told};
ghost use Rattle.chorus_c.specs.declared.handle.Handle.{Handle as Held};

mod asking;
mod chorus;
mod exchange;
mod handle;
mod replying;
mod serving;

use crate::exchange::Exchange;
use crate::handle::{Handle, begin};
use crate::serving::serve;
use std::alloc::Global;

/// How many bytes a machine takes where C holds it, at an address that 16 divides.
#[unsafe(no_mangle)]
pub extern "C" fn chorus_size() -> usize
    ensures { result ≡ type_size handle_row }
{
    size_of::<Handle>()
}

/// Begins a machine in the room that C gives: it is open, or closed and tells why at each call.
#[unsafe(no_mangle)]
pub unsafe extern "C" fn chorus_begin(alloc: Global, at: *mut u8, frames: u32, page: u32, swap: u32)
    requires* { sem 𝓛 (room_for_handle at) }
    ensures* { ∃ₛ (λ (new : Held). sem 𝓛 (handle_at at new) ∗ ⌜ Begun frames page swap new ⌝) }
{
    unsafe { std::ptr::write(at as *mut Handle, begin(alloc, frames, page, swap)) }
}

/// One call: what the exchange asks for is carried out, and told in it. A machine that was closed
/// lets all go that it held, and its room is C's.
#[unsafe(no_mangle)]
pub unsafe extern "C" fn chorus_call(at: *mut u8, exchange: *mut Exchange) -> u32
    ghost old: { Held × Told }
    requires* { sem 𝓛 (handle_at at old.0) ∗ sem 𝓛 (exchange_at exchange old.1) }
    ensures* { ∃ₛ (λ (new : Held × Told).
        (sem 𝓛 (handle_at at new.0) ∗ sem 𝓛 (exchange_at exchange new.1))
        ∗ ⌜ Served old.0 old.1 result new.0 new.1 ⌝) }
{
    serve(
        unsafe { &mut *(at as *mut Handle) },
        unsafe { &mut *exchange },
    )
}

// One call.
ghost use Rattle.std.specs.Prelude.{◌≡◌};
ghost use Rattle.chorus_c.specs.Exchanging.{answer_number, command_of, with_answer};
ghost use Rattle.chorus_c.specs.Serving.{AnsweredBy, Served};

use crate::asking::command_in;
use crate::chorus::Chorus;
use crate::exchange::{CLOSE, Exchange};
use crate::handle::{BAD_ARGUMENT, Handle, NO_MEMORY};
use crate::replying::{fault_number, put_reply};
use vm_ids::{Answer, Trouble};

// The bound of the counters is reached.
const WORN_OUT: u32 = 301;

// Tells an answer, and gives its number.
fn put_answer(answer: &Answer, exchange: &mut Exchange) -> u32
    ensures number { result ≡ answer_number answer.now }
    ensures told { exchange.new ≡ with_answer exchange.old answer.now }
{
    match answer {
        Ok(reply) => {
            put_reply(reply, exchange);
            0
        }
        Err(Trouble::Refused(refusal)) => refusal.number() as u32,
        Err(Trouble::Mapper(at)) => fault_number(*at),
        Err(Trouble::Memory) => NO_MEMORY,
    }
}

// Carries out what an exchange asks of an open machine, and tells the answer in it.
fn carry_out(chorus: &mut Chorus, exchange: &mut Exchange) -> u32
    ensures { AnsweredBy (command_of exchange.old) chorus.old exchange.old result
        chorus.new exchange.new }
{
    let Some(command) = command_in(exchange) else {
        return BAD_ARGUMENT;
    };
    if chorus.is_worn() {
        return WORN_OUT;
    }
    put_answer(&chorus.answer(&command), exchange)
}

// Closes a machine. It is a function of its own since a function pays at its entry for the locals of
// all its arms, and a machine that goes is one of 30 kB.
#[inline(never)]
fn close(handle: &mut Handle)
    ensures { handle.new ≡ Handle.Closed 300 }
{
    *handle = Handle::Closed(BAD_ARGUMENT);
}

/// One call: a machine is closed, or carries out what an exchange asks for.
pub fn serve(handle: &mut Handle, exchange: &mut Exchange) -> u32
    ensures { Served handle.old exchange.old result handle.new exchange.new }
{
    match handle {
        Handle::Closed(why) => *why,
        Handle::Open(_) if exchange.call == CLOSE => {
            close(handle);
            0
        }
        Handle::Open(chorus) => carry_out(chorus, exchange),
    }
}

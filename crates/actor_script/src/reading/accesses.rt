// Loads and stores, which most lines are.
ghost use Rattle.std.specs.Prelude.{◌≡◌, None, Some, Ok, bytes_eq, codes, if◌then◌else◌, MatchOption};
ghost use Rattle.vm_ids.specs.Accessing.{command_for};
ghost use Rattle.vm_model.specs.Run.{actor_of_line};
ghost use Rattle.actor_script.specs.Forms.{command_of, load_form, store_form};
ghost use Rattle.actor_script.specs.Words.{words_of};

use super::hexadecimal::{read_address, read_bytes};
use super::numbers::{read_length, read_lettered};
use super::words::{LONGEST_LINE, next_word, two_words};
use vm_ids::{Access, ActorId, Command};

// The command that an access of an actor is.
pub(super) fn command_for(actor: ActorId, access: Access) -> Command
    ensures { result ≡ command_for actor access }
{
    match access {
        Access::Load { address, length } => Command::Load(actor, address, length),
        Access::Store { address, piece } => Command::Store(actor, address, piece),
    }
}

// `A ADDR LEN`
#[tactic(auto, using(crate::proofs::Operands::loads), unfolding(crate::specs::Forms::load_form))]
#[inline(always)]
fn read_load(operands: &[u8]) -> Option<(ActorId, Access)>
    ensures { MatchOption result (load_form (words_of operands.now) ≡ None) (λ found.
        load_form (words_of operands.now) ≡ Some (command_for found.0 found.1)) }
{
    let (actor, address, length) = two_words(operands)?;
    let actor = ActorId(read_lettered(b'a', actor)?);
    let address = read_address(address)?;
    let length = read_length(length)?;
    Some((actor, Access::Load { address, length }))
}

// `A ADDR BYTES`
#[tactic(auto, using(crate::proofs::Operands::stores), unfolding(crate::specs::Forms::store_form))]
#[inline(always)]
fn read_store(operands: &[u8]) -> Option<(ActorId, Access)>
    ensures { MatchOption result (store_form (words_of operands.now) ≡ None) (λ found.
        store_form (words_of operands.now) ≡ Some (command_for found.0 found.1)) }
{
    let (actor, address, bytes) = two_words(operands)?;
    let actor = ActorId(read_lettered(b'a', actor)?);
    let address = read_address(address)?;
    let piece = read_bytes(bytes)?;
    Some((actor, Access::Store { address, piece }))
}

// The load or store of a verb and the text of its operands.
fn read_verb(verb: &[u8], operands: &[u8]) -> Option<(ActorId, Access)>
    ensures { let words = words_of operands.now in
        let form = (if bytes_eq verb.now (codes "load") then load_form words
        else if bytes_eq verb.now (codes "store") then store_form words
        else None) in
        MatchOption result (form ≡ None) (λ found. form ≡ Some (command_for found.0 found.1)) }
{
    match verb {
        b"load" => read_load(operands),
        b"store" => read_store(operands),
        _ => None,
    }
}

/// The load or store that a line asks, and whose it is. `None` exactly where the line asks
/// something else, or is no command.
#[inline(always)]
pub fn read_access(line: &[u8]) -> Option<(ActorId, Access)>
    ensures { MatchOption result (actor_of_line (command_of line.now) ≡ None) (λ found.
        command_of line.now ≡ Ok (command_for found.0 found.1)) }
{
    if line.len() > LONGEST_LINE {
        return None;
    }
    let (verb, operands) = next_word(line)?;
    read_verb(verb, operands)
}

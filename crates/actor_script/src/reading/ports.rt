// The lines of scripts of message ports.
ghost use Rattle.std.specs.Prelude.{◌≡◌, map};
ghost use Rattle.actor_script.specs.Forms.{asked_by};
ghost use Rattle.actor_script.specs.PortForms.{depth_of, is_shared, own_form_of, port_command_of, port_form, port_of, port_verb_form, receive_form, send_form};

use super::forms::read_extent;
use super::lines::read_line;
use super::numbers::{read_count, read_lettered, read_number};
use super::words::{is, words_within};
use vm_ids::{CacheId, Command, PageNo, PortCommand, PortId, Refusal};

// `PORT`
fn read_port_number(word: &[u8]) -> Option<PortId>
    ensures { result ≡ port_of word.now }
{
    Some(PortId(read_lettered(b'q', word)?))
}

// How many messages may wait at a port, 1 to 64.
#[tactic(auto, unfolding(crate::specs::PortForms::depth_of))]
fn read_depth(word: &[u8]) -> Option<u32>
    ensures { result ≡ depth_of word.now }
{
    let depth = read_count(word)?;
    if depth <= 64 { Some(depth) } else { None }
}

// `port N`
#[tactic(auto, unfolding(crate::specs::PortForms::port_form))]
fn read_port(operands: &[&[u8]]) -> Option<PortCommand>
    ensures { result ≡ port_form (map (λ w. w.now) operands.now) }
{
    match operands {
        [depth] => Some(PortCommand::Port(read_depth(depth)?)),
        _ => None,
    }
}

// `send PORT C O N`
#[tactic(auto, unfolding(crate::specs::PortForms::send_form))]
fn read_send(operands: &[&[u8]]) -> Option<PortCommand>
    ensures { result ≡ send_form (map (λ w. w.now) operands.now) }
{
    match operands {
        [port, extent @ ..] => {
            let port = read_port_number(port)?;
            let extent = read_extent(extent)?;
            Some(PortCommand::Send(port, extent))
        }
        [] => None,
    }
}

// `receive PORT C O`
#[tactic(auto, unfolding(crate::specs::PortForms::receive_form))]
fn read_receive(operands: &[&[u8]]) -> Option<PortCommand>
    ensures { result ≡ receive_form (map (λ w. w.now) operands.now) }
{
    match operands {
        [port, cache, first] => {
            let port = read_port_number(port)?;
            let cache = CacheId(read_lettered(b'c', cache)?);
            let first = PageNo(read_number(first)?);
            Some(PortCommand::Receive(port, cache, first))
        }
        _ => None,
    }
}

// The form of a verb that scripts of ports alone have.
#[tactic(auto, unfolding(crate::specs::PortForms::port_verb_form))]
fn read_verb(verb: &[u8], operands: &[&[u8]]) -> Option<PortCommand>
    ensures { result ≡ port_verb_form verb.now (map (λ w. w.now) operands.now) }
{
    if is(verb, b"port") {
        return read_port(operands);
    }
    if is(verb, b"send") {
        return read_send(operands);
    }
    if is(verb, b"receive") {
        return read_receive(operands);
    }
    None
}

fn read_form(words: &[&[u8]]) -> Option<PortCommand>
    ensures { result ≡ own_form_of (map (λ w. w.now) words.now) }
{
    match words {
        [verb, operands @ ..] => read_verb(verb, operands),
        [] => None,
    }
}

// A line that scripts of ports alone have.
fn read_own(line: &[u8]) -> Result<PortCommand, Refusal>
    ensures { result ≡ asked_by own_form_of line.now }
{
    match words_within(line) {
        Some(words) => read_form(words.as_slice()).ok_or(Refusal::BadLine),
        None => Err(Refusal::BadLine),
    }
}

// Whether scripts of ports have this command of actors too.
fn is_shared(command: &Command) -> bool
    ensures { result ≡ is_shared command.now }
{
    matches!(
        command,
        Command::MakeActor
            | Command::MakeTemp(_)
            | Command::Map(..)
            | Command::Load(..)
            | Command::Store(..)
            | Command::PageOut(_)
    )
}

/// Reads a line of a script of message ports, which has no line feed, as a command.
///
/// `BadLine` exactly where the line has more than 256 bytes or none of the forms of such a script.
#[tactic(auto, unfolding(crate::specs::PortForms::port_command_of))]
pub fn read_ports(line: &[u8]) -> Result<PortCommand, Refusal>
    ensures { result ≡ port_command_of line.now }
{
    match read_line(line) {
        Ok(command) => {
            if is_shared(&command) {
                Ok(PortCommand::Plain(command))
            } else {
                read_own(line)
            }
        }
        Err(_) => read_own(line),
    }
}

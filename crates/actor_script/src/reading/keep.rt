// The lines of scripts of segments that are opened again and again.
ghost use Rattle.std.specs.Prelude.{◌≡◌, map};
ghost use Rattle.actor_script.specs.Forms.{asked_by};
ghost use Rattle.actor_script.specs.KeepForms.{close_form, is_shared, keep_command_of, own_form_of};

use super::lines::read_line;
use super::numbers::read_number;
use super::words::{is, words_within};
use vm_ids::{Command, KeepCommand, Refusal, SegId};

// `close S`
#[tactic(auto, unfolding(crate::specs::KeepForms::close_form))]
fn read_close(operands: &[&[u8]]) -> Option<KeepCommand>
    ensures { result ≡ close_form (map (λ w. w.now) operands.now) }
{
    match operands {
        [segment] => Some(KeepCommand::Close(SegId(read_number(segment)?))),
        _ => None,
    }
}

fn read_form(words: &[&[u8]]) -> Option<KeepCommand>
    ensures { result ≡ own_form_of (map (λ w. w.now) words.now) }
{
    match words {
        [verb, operands @ ..] if is(verb, b"close") => read_close(operands),
        _ => None,
    }
}

// A line that these scripts alone have.
fn read_own(line: &[u8]) -> Result<KeepCommand, Refusal>
    ensures { result ≡ asked_by own_form_of line.now }
{
    match words_within(line) {
        Some(words) => read_form(words.as_slice()).ok_or(Refusal::BadLine),
        None => Err(Refusal::BadLine),
    }
}

// Whether these scripts have this command of actors too.
fn is_shared(command: &Command) -> bool
    ensures { result ≡ is_shared command.now }
{
    matches!(
        command,
        Command::MakeActor
            | Command::ExitActor(_)
            | Command::MakeTemp(_)
            | Command::OpenSegment(_)
            | Command::Copy(_)
            | Command::Map(..)
            | Command::Unmap(_)
            | Command::Load(..)
            | Command::Store(..)
            | Command::PageOut(_)
    )
}

/// Reads a line of a script of segments that are opened again and again, which has no line feed, as
/// a command.
///
/// `BadLine` exactly where the line has more than 256 bytes or none of the forms of such a script.
#[tactic(auto, unfolding(crate::specs::KeepForms::keep_command_of))]
pub fn read_keep(line: &[u8]) -> Result<KeepCommand, Refusal>
    ensures { result ≡ keep_command_of line.now }
{
    match read_line(line) {
        Ok(command) => {
            if is_shared(&command) {
                Ok(KeepCommand::Plain(command))
            } else {
                read_own(line)
            }
        }
        Err(_) => read_own(line),
    }
}

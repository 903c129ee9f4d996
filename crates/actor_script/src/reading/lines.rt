// Whole lines.
ghost use Rattle.std.specs.Prelude.{◌≡◌, None, ok_or, IfOk};
ghost use Rattle.vm_ids.specs.declared.refusal.Refusal.TheVariants.{BadLine};
ghost use Rattle.vm_model.specs.Asking.{IsWellFormed};
ghost use Rattle.vm_model.specs.Run.{actor_of_line};
ghost use Rattle.actor_script.specs.Forms.{command_of, form_of};
ghost use Rattle.actor_script.specs.Verbs.{other_form};
ghost use Rattle.actor_script.specs.Words.{words_of};

use super::accesses::{command_for, read_access};
use super::verbs::Verb;
use super::words::{LONGEST_LINE, next_word, split_words};
use vm_ids::{Command, Refusal};

// The command of a word and of the text of its operands.
fn read_verb(word: &[u8], operands: &[u8]) -> Option<Command>
    ensures { result ≡ other_form word.now (words_of operands.now) }
{
    let verb = Verb::of(word)?;
    let operands = split_words(operands)?;
    verb.read(operands.as_slice())
}

// The command of a line that asks no load and no store.
fn read_form(line: &[u8]) -> Option<Command>
    requires { actor_of_line (ok_or (form_of (words_of line.now)) BadLine) ≡ None }
    ensures { result ≡ form_of (words_of line.now) }
{
    match next_word(line) {
        Some((word, operands)) => read_verb(word, operands),
        None => Verb::of(line)?.read(&[]),
    }
}

/// Reads a line, which has no line feed and asks no load and no store, as a command.
///
/// `BadLine` exactly where the line has more than 256 bytes or none of the other forms of the
/// script language.
#[tactic(auto, unfolding(crate::specs::Forms::command_of))]
pub fn read_other(line: &[u8]) -> Result<Command, Refusal>
    requires { actor_of_line (command_of line.now) ≡ None }
    ensures command { result ≡ command_of line.now }
    ensures well_formed { IfOk result IsWellFormed }
{
    if line.len() > LONGEST_LINE {
        return Err(Refusal::BadLine);
    }
    read_form(line).ok_or(Refusal::BadLine)
}

/// Reads a line, which has no line feed, as a command.
///
/// `BadLine` exactly where the line has more than 256 bytes or none of the forms of the script
/// language.
pub fn read_line(line: &[u8]) -> Result<Command, Refusal>
    ensures command { result ≡ command_of line.now }
    ensures well_formed { IfOk result IsWellFormed }
{
    match read_access(line) {
        Some((actor, access)) => Ok(command_for(actor, access)),
        None => read_other(line),
    }
}

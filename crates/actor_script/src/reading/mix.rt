// The lines of scripts of processes.
ghost use Rattle.std.specs.Prelude.{◌≡◌, map, IfOk};
ghost use Rattle.vm_ids.specs.MixAsking.{IsMixWellFormed};
ghost use Rattle.actor_script.specs.MixForms.{exec_form, fork_form, exit_form, grow_form, load_form, store_form, pageout_form, mix_verb_form, mix_form_of, mix_command_of, process_of};

use super::hexadecimal::{read_address, read_bytes};
use super::numbers::{read_count, read_length, read_lettered, read_number};
use super::words::{is, words_within};
use vm_ids::{MixCommand, ProcId, Refusal, SegId};

// `P`
fn read_process(word: &[u8]) -> Option<ProcId>
    ensures { result ≡ process_of word.now }
{
    Some(ProcId(read_lettered(b'p', word)?))
}

// `exec S T D K`
#[tactic(auto, unfolding(crate::specs::MixForms::exec_form))]
fn read_exec(operands: &[&[u8]]) -> Option<MixCommand>
    ensures { result ≡ exec_form (map (λ w. w.now) operands.now) }
{
    match operands {
        [segment, text_pages, data_pages, stack_pages] => {
            let segment = SegId(read_number(segment)?);
            let text_pages = read_count(text_pages)?;
            let data_pages = read_count(data_pages)?;
            let stack_pages = read_count(stack_pages)?;
            Some(MixCommand::Exec(segment, text_pages, data_pages, stack_pages))
        }
        _ => None,
    }
}

// `fork P`
#[tactic(auto, unfolding(crate::specs::MixForms::fork_form))]
fn read_fork(operands: &[&[u8]]) -> Option<MixCommand>
    ensures { result ≡ fork_form (map (λ w. w.now) operands.now) }
{
    match operands {
        [process] => Some(MixCommand::Fork(read_process(process)?)),
        _ => None,
    }
}

// `exit P`
#[tactic(auto, unfolding(crate::specs::MixForms::exit_form))]
fn read_exit(operands: &[&[u8]]) -> Option<MixCommand>
    ensures { result ≡ exit_form (map (λ w. w.now) operands.now) }
{
    match operands {
        [process] => Some(MixCommand::Exit(read_process(process)?)),
        _ => None,
    }
}

// `grow P N`
#[tactic(auto, unfolding(crate::specs::MixForms::grow_form))]
fn read_grow(operands: &[&[u8]]) -> Option<MixCommand>
    ensures { result ≡ grow_form (map (λ w. w.now) operands.now) }
{
    match operands {
        [process, pages] => {
            let process = read_process(process)?;
            let pages = read_count(pages)?;
            Some(MixCommand::Grow(process, pages))
        }
        _ => None,
    }
}

// `load P ADDR LEN`
#[tactic(auto, unfolding(crate::specs::MixForms::load_form))]
fn read_load(operands: &[&[u8]]) -> Option<MixCommand>
    ensures { result ≡ load_form (map (λ w. w.now) operands.now) }
{
    match operands {
        [process, address, length] => {
            let process = read_process(process)?;
            let address = read_address(address)?;
            let length = read_length(length)?;
            Some(MixCommand::Load(process, address, length))
        }
        _ => None,
    }
}

// `store P ADDR BYTES`
#[tactic(auto, unfolding(crate::specs::MixForms::store_form))]
fn read_store(operands: &[&[u8]]) -> Option<MixCommand>
    ensures { result ≡ store_form (map (λ w. w.now) operands.now) }
{
    match operands {
        [process, address, bytes] => {
            let process = read_process(process)?;
            let address = read_address(address)?;
            let piece = read_bytes(bytes)?;
            Some(MixCommand::Store(process, address, piece))
        }
        _ => None,
    }
}

// `pageout N`
#[tactic(auto, unfolding(crate::specs::MixForms::pageout_form))]
fn read_pageout(operands: &[&[u8]]) -> Option<MixCommand>
    ensures { result ≡ pageout_form (map (λ w. w.now) operands.now) }
{
    match operands {
        [pages] => Some(MixCommand::PageOut(read_count(pages)?)),
        _ => None,
    }
}

// The form of a verb.
#[tactic(auto, unfolding(crate::specs::MixForms::mix_verb_form))]
fn read_verb(verb: &[u8], operands: &[&[u8]]) -> Option<MixCommand>
    ensures { result ≡ mix_verb_form verb.now (map (λ w. w.now) operands.now) }
{
    if is(verb, b"exec") {
        return read_exec(operands);
    }
    if is(verb, b"fork") {
        return read_fork(operands);
    }
    if is(verb, b"exit") {
        return read_exit(operands);
    }
    if is(verb, b"grow") {
        return read_grow(operands);
    }
    if is(verb, b"load") {
        return read_load(operands);
    }
    if is(verb, b"store") {
        return read_store(operands);
    }
    if is(verb, b"pageout") {
        return read_pageout(operands);
    }
    None
}

fn read_form(words: &[&[u8]]) -> Option<MixCommand>
    ensures { result ≡ mix_form_of (map (λ w. w.now) words.now) }
{
    match words {
        [verb, operands @ ..] => read_verb(verb, operands),
        [] => None,
    }
}

/// Reads a line of a script of processes, which has no line feed, as a command.
///
/// `BadLine` exactly where the line has more than 256 bytes or none of the forms of such a script.
#[tactic(auto, unfolding(crate::specs::MixForms::mix_command_of))]
pub fn read_mix(line: &[u8]) -> Result<MixCommand, Refusal>
    ensures command { result ≡ mix_command_of line.now }
    ensures well_formed { IfOk result IsMixWellFormed }
{
    match words_within(line) {
        Some(words) => read_form(words.as_slice()).ok_or(Refusal::BadLine),
        None => Err(Refusal::BadLine),
    }
}

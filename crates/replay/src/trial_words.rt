// The words of a script that a number makes, and those of a trial of it.
ghost use Rattle.std.specs.Prelude.{◌≡◌, ◌||◌, ◌&&◌, false, map, not, IfOk};
ghost use Rattle.std.specs.List.{list_any};
ghost use Rattle.replay.specs.Commanding.{is_equals, is_hyphened, line_count_of, options_among, others_among, script_of, trial_behind, trial_of};

use crate::asked::{Asked, Generated};
use crate::words::frames_behind;
use actor_script::read_number;
use std::alloc::Global;
use vm_ids::NoMemory;

// A script that a number makes has so many lines at most.
const MOST_LINES: u32 = 1_000_000;

// Words, those of options apart.
#[derive(Drop)]
struct Parted<'a> {
    options: Vec<&'a str>,
    others: Vec<&'a str>,
}

// The number of lines that a word spells.
fn line_count_in(word: &str) -> Option<u32>
    ensures { result ≡ line_count_of word.now }
{
    let lines = read_number(word.as_bytes())?;
    if 1 <= lines && lines <= MOST_LINES {
        Some(lines)
    } else {
        None
    }
}

/// The script that two words name, its number and how many lines it has: `None` exactly for other
/// words.
pub fn script_in(words: &[&str]) -> Option<Generated>
    ensures { result ≡ script_of (map (λ w. w.now) words.now) }
{
    match words {
        [number, lines] => {
            let number = read_number(number.as_bytes())?;
            let lines = line_count_in(lines)?;
            Some(Generated { number, lines })
        }
        _ => None,
    }
}

// Whether a word is an option, which a hyphen begins, or its value.
fn is_of_option(is_value: bool, word: &str) -> bool
    ensures { result ≡ (is_value || is_hyphened word.now) }
{
    is_value || word.starts_with('-')
}

// Whether the value of an option is the next word: the option hasn't one itself.
fn awaits_value(is_value: bool, word: &str) -> bool
    ensures { result ≡ (not is_value && not (list_any is_equals word.now)) }
{
    !is_value && !word.as_bytes().contains(&b'=')
}

// Parts words into those of options and the others. A hyphen begins an option, and its value is
// the next word unless it has one itself.
fn part<'a>(alloc: Global, words: &[&'a str]) -> Result<Parted<'a>, NoMemory>
    ensures options { IfOk result (λ parted. map (λ w. w.now) parted.options.items
        ≡ options_among false (map (λ w. w.now) words.now)) }
    ensures others { IfOk result (λ parted. map (λ w. w.now) parted.others.items
        ≡ others_among false (map (λ w. w.now) words.now)) }
{
    let mut options = Vec::new(alloc);
    let mut others = Vec::new(alloc);
    let mut is_value = false;
    for word in words {
        if is_of_option(is_value, word) {
            options.push(*word)?;
            is_value = awaits_value(is_value, word);
        } else {
            others.push(*word)?;
        }
    }
    Ok(Parted { options, others })
}

// What a script and options ask for.
fn trial_of(alloc: Global, script: &[&str], options: &[&str]) -> Result<Option<Asked>, NoMemory>
    ensures { IfOk result (λ asked. asked
        ≡ trial_of (map (λ w. w.now) script.now) (map (λ w. w.now) options.now)) }
{
    let Some(script) = script_in(script) else {
        return Ok(None);
    };
    match frames_behind(alloc, options)? {
        Some(frames) => Ok(Some(Asked::Trial(script, frames))),
        None => Ok(None),
    }
}

/// What the words behind `trial` ask for: a script, and options before, between or behind its two
/// words. `None` exactly for other words.
pub fn trial_behind(alloc: Global, words: &[&str]) -> Result<Option<Asked>, NoMemory>
    ensures { IfOk result (λ asked. asked ≡ trial_behind (map (λ w. w.now) words.now)) }
{
    let parted = part(alloc, words)?;
    trial_of(alloc, &parted.others, &parted.options)
}

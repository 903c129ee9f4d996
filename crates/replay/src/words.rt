// The words of a command line.
ghost use Rattle.std.specs.Prelude.{◌≡◌, ◌≤◌, ◌^◌, false, map, true, option_map, IfErr, IfOk, IsSome};
ghost use Rattle.clap.specs.Words.{app_of, first_value as found_first, found_of, kind_of};
ghost use Rattle.replay.specs.Commanding.{asked_by, first_value, folder_of, frames_behind, frames_of, is_value, keep_behind, keep_of, limit_of, page_of, page_size_of, size_behind, size_of, value_in, values_behind};
ghost use Rattle.replay.specs.Reading.{are_named, bare_command, has_escape, have_values, values_in, with_options};

use crate::asked::{Asked, Size};
use crate::trial_words::{script_in, trial_behind};
use actor_script::read_number;
use clap::error::ErrorKind;
use clap::{Arg, ArgMatches, Command, Error};
use std::alloc::{AllocError, Global};
use vm_ids::{NoMemory, PAGE};

// A run has so many page frames at least, and at most.
const LEAST_FRAMES: u32 = 3;

const MOST_FRAMES: u32 = 1 << 16;

// All page frames of a run together have so many bytes at most.
const MOST_FRAME_BYTES: u64 = 1 << 28;

// The sizes that a page may have.
const PAGE_SIZES: [u32; 8] = [512, 1024, 2048, 4096, 8192, 16384, 32768, 65536];

// The names of the options of `run`.
const RUN_OPTIONS: [&str; 3] = ["frames", "page", "segments"];

// The names of the options of each word whose pages have 4,096 bytes.
const PLAIN_OPTIONS: [&str; 2] = ["frames", "segments"];

// The names of the options of `keep`.
const KEEP_OPTIONS: [&str; 3] = ["frames", "limit", "segments"];

// So many caches to which nothing refers may be kept, at most.
const MOST_KEPT: u32 = 1024;

// The word behind which clap takes each word as it stands. It lets it stand last, too.
const ESCAPE: &str = "--";

// The number of page frames that a word spells.
fn frames_in(word: &str) -> Option<u32>
    ensures { result ≡ frames_of word.now }
{
    let frames = read_number(word.as_bytes())?;
    if LEAST_FRAMES <= frames && frames <= MOST_FRAMES {
        Some(frames)
    } else {
        None
    }
}

// The size of a page that a word spells.
fn page_in(word: &str) -> Option<u32>
    ensures { result ≡ page_of word.now }
{
    let size = read_number(word.as_bytes())?;
    if PAGE_SIZES.contains(&size) {
        Some(size)
    } else {
        None
    }
}

// How many caches may be kept, as a word spells it.
fn limit_in(word: &str) -> Option<u32>
    ensures { result ≡ limit_of word.now }
{
    let limit = read_number(word.as_bytes())?;
    if limit <= MOST_KEPT {
        Some(limit)
    } else {
        None
    }
}

// Whether a word may be the value of an option.
fn is_value(word: &str) -> bool
    ensures { result ≡ is_value word.now }
{
    !word.is_empty() && !word.starts_with('-')
}

// Whether each of these options that clap found is given a value.
fn have_values(matches: &ArgMatches<'_>, known: &[&str]) -> bool
    ensures { result
        ≡ have_values (found_first (found_of matches.now)) (map (λ w. w.now) known.now) }
{
    match known {
        [name, names @ ..] => {
            let is_given = match matches.get_str(name) {
                Some(word) => is_value(word),
                None => true,
            };
            is_given && have_values(matches, names)
        }
        [] => true,
    }
}

// The size that the values ask for which clap found: it knows the options, and this the forms of
// their values.
fn size_in(matches: &ArgMatches<'_>) -> Option<Size>
    ensures { result ≡ size_of (found_first (found_of matches.now)) }
{
    let frames = frames_in(matches.get_str("frames")?)?;
    let page_bytes = match matches.get_str("page") {
        Some(word) => page_in(word)?,
        None => PAGE as u32,
    };
    if u64::from(frames) * u64::from(page_bytes) > MOST_FRAME_BYTES {
        return None;
    }
    Some(Size { frames, page_bytes })
}

// What the values ask for which clap found behind `keep`.
fn keep_in(matches: &ArgMatches<'_>) -> Option<Asked>
    ensures { result ≡ keep_of (found_first (found_of matches.now)) }
{
    let size = size_in(matches)?;
    let limit = limit_in(matches.get_str("limit")?)?;
    Some(Asked::Keep {
        limit,
        frames: size.frames,
    })
}

// A command that takes no program's name and knows no option.
fn bare_command<'a>(alloc: Global) -> Command<'a>
    ensures { app_of result ≡ bare_command }
{
    Command::new(alloc, "options")
        .no_binary_name(true)
        .disable_help_flag(true)
        .disable_version_flag(true)
}

// A command that knows these options besides its own.
fn with_options<'a>(
    alloc: Global,
    command: Command<'a>,
    names: &[&'static str],
) -> Result<Command<'a>, AllocError>
    ensures { IfOk result (λ c. app_of c
        ≡ with_options (app_of command.entry) (map (λ w. w.now) names.now)) }
{
    match names {
        [name, rest @ ..] => {
            let command = command.arg(Arg::new(alloc, name).long(name))?;
            with_options(alloc, command, rest)
        }
        [] => Ok(command),
    }
}

// What clap reads in words that are options of these names.
fn matches_in<'a>(
    alloc: Global,
    known: &[&'static str],
    words: &'a [&'a str],
) -> Result<ArgMatches<'a>, Error>
    requires { are_named (map (λ w. w.now) known.now) ≡ true }
    ensures read { IfOk result (λ m. has_escape (map (λ w. w.now) words.now) ≡ false →
        values_behind (map (λ w. w.now) known.now) (map (λ w. w.now) words.now)
        ≡ values_in (map (λ w. w.now) known.now) m) }
    ensures refused { IfErr result (λ e.
        IsSome (values_behind (map (λ w. w.now) known.now) (map (λ w. w.now) words.now)) →
        kind_of e ≡ ErrorKind.OutOfMemory) }
{
    let command = with_options(alloc, bare_command(alloc), known)?;
    command.try_get_matches_from(words)
}

// The values that words give to options of these names: `None` exactly for other words.
fn values_behind<'a>(
    alloc: Global,
    known: &[&'static str],
    words: &'a [&'a str],
) -> Result<Option<ArgMatches<'a>>, NoMemory>
    requires { are_named (map (λ w. w.now) known.now) ≡ true }
    ensures { IfOk result (λ found. option_map (λ m. found_first (found_of m)) found
        ≡ values_behind (map (λ w. w.now) known.now) (map (λ w. w.now) words.now)) }
{
    if words.contains(&ESCAPE) {
        return Ok(None);
    }
    match matches_in(alloc, known, words) {
        Ok(matches) => {
            if have_values(&matches, known) {
                Ok(Some(matches))
            } else {
                Ok(None)
            }
        }
        Err(error) if error.kind() == ErrorKind::OutOfMemory => Err(NoMemory),
        Err(_) => Ok(None),
    }
}

// The size that words ask for which are options of these names: `None` exactly for other words.
fn size_behind(
    alloc: Global,
    known: &[&'static str],
    words: &[&str],
) -> Result<Option<Size>, NoMemory>
    requires { are_named (map (λ w. w.now) known.now) ≡ true }
    ensures { IfOk result (λ asked.
        asked ≡ size_behind (map (λ w. w.now) known.now) (map (λ w. w.now) words.now)) }
{
    match values_behind(alloc, known, words)? {
        Some(values) => Ok(size_in(&values)),
        None => Ok(None),
    }
}

/// The number of page frames that words ask for whose pages have 4,096 bytes: `None` exactly for
/// other words.
pub fn frames_behind(alloc: Global, words: &[&str]) -> Result<Option<u32>, NoMemory>
    ensures { IfOk result (λ frames. frames ≡ frames_behind (map (λ w. w.now) words.now)) }
{
    match size_behind(alloc, &PLAIN_OPTIONS, words)? {
        Some(size) => Ok(Some(size.frames)),
        None => Ok(None),
    }
}

// What words ask for which are options of `keep`: `None` exactly for other words.
fn keep_behind(alloc: Global, words: &[&str]) -> Result<Option<Asked>, NoMemory>
    ensures { IfOk result (λ asked. asked ≡ keep_behind (map (λ w. w.now) words.now)) }
{
    match values_behind(alloc, &KEEP_OPTIONS, words)? {
        Some(values) => Ok(keep_in(&values)),
        None => Ok(None),
    }
}

/// What the words of a command line ask for, which are `run --frames F [--page B] [--segments
/// DIR]`, `generate N L`, `trial N L --frames F [--segments DIR]`, `mix --frames F [--segments
/// DIR]`, `ipc --frames F [--segments DIR]`, `keep --limit K --frames F [--segments DIR]` or `flat
/// --frames F [--segments DIR]`: `None` exactly for other words. `NoMemory` where there is none to
/// read them.
#[tactic(auto, unfolding(crate::specs::Commanding::asked_by))]
pub fn read_words(alloc: Global, words: &[&str]) -> Result<Option<Asked>, NoMemory>
    ensures { IfOk result (λ asked. asked ≡ asked_by (map (λ w. w.now) words.now)) }
{
    match words {
        [command, options @ ..] if *command == "run" => {
            match size_behind(alloc, &RUN_OPTIONS, options)? {
                Some(size) => Ok(Some(Asked::Run(size))),
                None => Ok(None),
            }
        }
        [command, script @ ..] if *command == "generate" => match script_in(script) {
            Some(script) => Ok(Some(Asked::Generate(script))),
            None => Ok(None),
        },
        [command, rest @ ..] if *command == "trial" => trial_behind(alloc, rest),
        [command, options @ ..] if *command == "mix" => match frames_behind(alloc, options)? {
            Some(frames) => Ok(Some(Asked::Mix { frames })),
            None => Ok(None),
        },
        [command, options @ ..] if *command == "ipc" => match frames_behind(alloc, options)? {
            Some(frames) => Ok(Some(Asked::Ipc { frames })),
            None => Ok(None),
        },
        [command, options @ ..] if *command == "keep" => keep_behind(alloc, options),
        [command, options @ ..] if *command == "flat" => match frames_behind(alloc, options)? {
            Some(frames) => Ok(Some(Asked::Flat { frames })),
            None => Ok(None),
        },
        _ => Ok(None),
    }
}

// The value that one word gives to the option of this name, as `--page=512` does.
fn value_in<'a>(name: &str, word: &'a str) -> Option<&'a str>
    ensures { option_map (λ w. w.now) result ≡ value_in name.now word.now }
{
    let (before, after) = word.split_once('=')?;
    if before == name { Some(after) } else { None }
}

/// The value of the first option of this name, whatever else the words are.
pub fn first_value<'a>(name: &str, words: &[&'a str]) -> Option<&'a str>
    ensures { option_map (λ w. w.now) result
        ≡ first_value name.now (map (λ w. w.now) words.now) }
{
    match words {
        [word, rest @ ..] if *word == name => rest.first().copied(),
        [word, rest @ ..] => match value_in(name, word) {
            Some(value) => Some(value),
            None => first_value(name, rest),
        },
        [] => None,
    }
}

/// The folder that the words name behind the first `--segments`, or `.`, the working folder, where
/// none does. It takes no memory.
pub fn folder<'a>(words: &[&'a str]) -> &'a str
    ensures { result.now ≡ folder_of (map (λ w. w.now) words.now) }
{
    first_value("--segments", words).unwrap_or(".")
}

/// The bytes of a page that the words name behind the first `--page`, where that is one of the
/// eight sizes, and 4,096 otherwise. It takes no memory.
pub fn page_size(words: &[&str]) -> u32
    ensures size { result ≡ page_size_of (map (λ w. w.now) words.now) }
    ensures least { 1 ≤ result }
    ensures most { result ≤ 2 ^ 16 }
{
    first_value("--page", words)
        .and_then(page_in)
        .unwrap_or(PAGE as u32)
}

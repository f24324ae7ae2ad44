//! What is asked for by the matches of a parse.

ghost use Rattle.std.specs.Prelude.{◌≡◌, ◌+◌, ◌&&◌, if◌then◌else◌, Some, None, is_some, unwrap_or, option_map};
ghost use Rattle.clap.specs.Words.{first_of, found_of, rows_of, subcommand_rows_of};
ghost use Rattle.fc_words.specs.Values.{grain_size_of};
ghost use Rattle.fc_args.specs.Grammar.{number_within, drill_number, cache_parts, options_of_words, read_if_given};
ghost use Rattle.fc_args.specs.Matches.{given_in, is_true, command_in, found_in};

use crate::asked::{Asked, RunOptions};
use clap::ArgMatches;
use fc_base::size::GrainSize;
use fc_words::values::is_numeral_word;

/// The most parts that a write cache holds.
const MOST_PARTS: u32 = 1024;

/// The most digits of a number.
const NUMBER_DIGITS: usize = 20;

/// The number of 1 to 20 decimal digits. None where the word isn't one, or its number is 2^64 or more.
pub fn number(word: &str) -> Option<u64>
    ensures { result ≡ drill_number word.now }
{
    if word.len() > NUMBER_DIGITS || !is_numeral_word(word.as_bytes()) {
        return None;
    }
    match word.parse::<u64>() {
        Ok(number) => Some(number),
        Err(_) => None,
    }
}

/// The number, where it is from 1 to the greatest.
fn number_from_one(word: &str, most: u32) -> Option<u32>
    ensures { result ≡ number_within 1 (most + 1) word.now }
{
    match number(word) {
        Some(number) if number >= 1 && number <= u64::from(most) => Some(number as u32),
        _ => None,
    }
}

/// The size of a grain.
fn grain_size(word: &str) -> Option<GrainSize>
    ensures { result ≡ grain_size_of word.now }
{
    if word == "64" {
        Some(GrainSize::K64)
    } else if word == "256" {
        Some(GrainSize::K256)
    } else {
        None
    }
}

/// The grain size of a value, if there is one. None where the value isn't one of a grain.
fn grain_given(value: Option<&str>) -> Option<Option<GrainSize>>
    ensures { result ≡ read_if_given grain_size_of (option_map (λ word. word.now) value.entry) }
{
    match value {
        Some(word) => match grain_size(word) {
            Some(grain) => Some(Some(grain)),
            None => None,
        },
        None => Some(None),
    }
}

/// The parts of a cache of a value, if there is one. None where the value isn't a number of them.
fn cache_given(value: Option<&str>) -> Option<Option<u32>>
    ensures { result ≡ read_if_given cache_parts (option_map (λ word. word.now) value.entry) }
{
    match value {
        Some(word) => match number_from_one(word, MOST_PARTS) {
            Some(parts) => Some(Some(parts)),
            None => None,
        },
        None => Some(None),
    }
}

/// Whether a flag was given, by its value.
pub fn is_true(value: Option<&str>) -> bool
    ensures { result ≡ is_true (option_map (λ word. word.now) value.entry) }
{
    match value {
        Some(word) => word == "true",
        None => false,
    }
}

/// The options of a run. A trace and a cache go not together.
fn options(grain: Option<GrainSize>, trace: bool, cache: Option<u32>) -> Option<RunOptions>
    ensures { result ≡ (if trace && is_some cache then None else Some (record { grain = unwrap_or grain GrainSize.K256; trace = trace; cache = cache })) }
{
    if trace && cache.is_some() {
        return None;
    }
    Some(RunOptions {
        grain: grain.unwrap_or(GrainSize::K256),
        trace,
        cache,
    })
}

/// The word of an argument, by the matches of its command.
pub fn word_of<'a>(matches: &ArgMatches<'a>, name: &str) -> Option<&'a str>
    ensures { option_map (λ word. word.now) result ≡ first_of name.now (rows_of (found_of matches.now)) }
{
    matches.get_str(name)
}

/// The options of a run, by its matches.
fn options_in(matches: &ArgMatches<'_>) -> Option<RunOptions>
    ensures { result ≡ options_of_words (given_in (rows_of (found_of matches.now))) }
{
    let trace = is_true(word_of(matches, "trace"));
    match grain_given(word_of(matches, "grain")) {
        Some(grain) => match cache_given(word_of(matches, "cache")) {
            Some(cache) => options(grain, trace, cache),
            None => None,
        },
        None => None,
    }
}

/// What is asked for, by the name of the command and its matches.
fn command_in(name: &str, matches: &ArgMatches<'_>) -> Option<Asked>
    ensures { result ≡ command_in name.now (rows_of (found_of matches.now)) }
{
    if name == "run" {
        options_in(matches).map(Asked::Run)
    } else if name == "drill" {
        match word_of(matches, "number") {
            Some(word) => number(word).map(Asked::Drill),
            None => None,
        }
    } else if name == "check" {
        Some(Asked::Check)
    } else if name == "stop" {
        match word_of(matches, "number") {
            Some(word) => number_from_one(word, u32::MAX).map(Asked::Stop),
            None => None,
        }
    } else {
        None
    }
}

/// What is asked for by the matches of the program's words.
pub(crate) fn asked_in(matches: &ArgMatches<'_>) -> Option<Asked>
    ensures { result ≡ found_in (subcommand_rows_of matches.now) }
{
    match matches.subcommand() {
        Some((name, matches)) => command_in(name, matches),
        None => None,
    }
}

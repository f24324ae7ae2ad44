//! What the words of the program ask for, read by `clap`.

ghost use Rattle.std.specs.Prelude.{◌≡◌, IfOk, map, false};
ghost use Rattle.std.specs.List.{list_any};
ghost use Rattle.fc_args.specs.Grammar.{asked_by, if_built, in_full};
ghost use Rattle.fc_args.specs.Program.{is_stray};

use crate::asked::Asked;
use crate::found::asked_in;
use crate::program::program;
use crate::table;
use clap::error::ErrorKind;
use fc_base::outcome::NoMemory;
use std::alloc::Global;

/// Whether a word begins with a hyphen and is no option: `-`, `--` and `-x`.
fn is_stray(word: &str) -> bool
    ensures { result ≡ is_stray word.now }
{
    match word.as_bytes() {
        [b'-'] | [b'-', _] => true,
        [b'-', second, _, ..] => *second != b'-',
        _ => false,
    }
}

/// What is asked for, where it is built.
fn if_built(asked: Asked) -> Option<Asked>
    ensures { result ≡ if_built asked }
{
    let is_built = match asked {
        Asked::Run(options) => {
            (table::TRACE_IS_BUILT || !options.trace)
                && (table::CACHE_IS_BUILT || options.cache.is_none())
        }
        Asked::Drill(_) => true,
        Asked::Check => table::CHECK_IS_BUILT,
        Asked::Stop(_) => table::STOP_IS_BUILT,
    };
    if is_built { Some(asked) } else { None }
}

/// Whether one of the words begins with a hyphen and is no option: `-`, `--` and `-x`.
pub fn has_stray(words: &[&str]) -> bool
    ensures { result ≡ list_any (λ word. is_stray word.now) words.now }
{
    words.iter().any(|word| is_stray(word))
}

/// What words ask for of which none is stray, built or not: the parse by `clap`.
fn parse(alloc: Global, words: &[&str]) -> Result<Option<Asked>, NoMemory>
    requires { list_any (λ word. is_stray word.now) words.now ≡ false }
    ensures { IfOk result (λ asked. asked ≡ in_full (map (λ word. word.now) words.now)) }
{
    let program = match program(alloc) {
        Ok(program) => program,
        Err(_) => return Err(NoMemory),
    };
    match program.try_get_matches_from(words) {
        Ok(matches) => Ok(asked_in(&matches)),
        Err(error) => match error.kind() {
            ErrorKind::OutOfMemory => Err(NoMemory),
            _ => Ok(None),
        },
    }
}

/// What the words ask for, whether it is built or not. NoMemory may come whatever the words.
pub fn read_in_full(alloc: Global, words: &[&str]) -> Result<Option<Asked>, NoMemory>
    ensures { IfOk result (λ asked. asked ≡ in_full (map (λ word. word.now) words.now)) }
{
    if has_stray(words) {
        return Ok(None);
    }
    parse(alloc, words)
}

/// What the words of the program ask for: None exactly where they aren't in its grammar. NoMemory may come whatever the words.
pub fn read_words(alloc: Global, words: &[&str]) -> Result<Option<Asked>, NoMemory>
    ensures { IfOk result (λ asked. asked ≡ asked_by (map (λ word. word.now) words.now)) }
{
    match read_in_full(alloc, words) {
        Ok(Some(asked)) => Ok(if_built(asked)),
        Ok(None) => Ok(None),
        Err(refused) => Err(refused),
    }
}

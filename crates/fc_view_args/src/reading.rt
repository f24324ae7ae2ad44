//! What the words of the viewer ask for, read by `clap`.

ghost use Rattle.std.specs.Prelude.{◌≡◌, IfOk, map, false};
ghost use Rattle.std.specs.List.{list_any};
ghost use Rattle.fc_args.specs.Program.{is_stray};
ghost use Rattle.fc_view_args.specs.Grammar.{wanted_by};

use crate::command::command;
use crate::found::wanted_in;
use crate::wanted::Wanted;
use clap::error::ErrorKind;
use fc_args::reading::has_stray;
use fc_base::outcome::NoMemory;
use std::alloc::Global;

/// What words ask for of which none is stray: the parse by `clap`.
fn parse(alloc: Global, words: &[&str]) -> Result<Option<Wanted>, NoMemory>
    requires { list_any (λ word. is_stray word.now) words.now ≡ false }
    ensures { IfOk result (λ wanted. wanted ≡ wanted_by (map (λ word. word.now) words.now)) }
{
    let command = match command(alloc) {
        Ok(command) => command,
        Err(_) => return Err(NoMemory),
    };
    match command.try_get_matches_from(words) {
        Ok(matches) => Ok(wanted_in(&matches)),
        Err(error) => match error.kind() {
            ErrorKind::OutOfMemory => Err(NoMemory),
            _ => Ok(None),
        },
    }
}

/// What the words of the viewer ask for: None exactly where they aren't in its grammar. NoMemory may come whatever the words.
pub fn read_words(alloc: Global, words: &[&str]) -> Result<Option<Wanted>, NoMemory>
    ensures { IfOk result (λ wanted. wanted ≡ wanted_by (map (λ word. word.now) words.now)) }
{
    if has_stray(words) {
        return Ok(None);
    }
    parse(alloc, words)
}

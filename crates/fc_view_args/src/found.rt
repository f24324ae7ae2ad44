//! What is wanted by the matches of a parse.

ghost use Rattle.std.specs.Prelude.{◌≡◌, option_map};
ghost use Rattle.clap.specs.Words.{found_of, rows_of};
ghost use Rattle.fc_args.specs.Grammar.{drill_number, read_if_given};
ghost use Rattle.fc_view_args.specs.Grammar.{wanted_of_words};
ghost use Rattle.fc_view_args.specs.Matches.{given_in};

use crate::wanted::Wanted;
use clap::ArgMatches;
use fc_args::found::{is_true, number, word_of};

/// The number of a value, if there is one. None where the value isn't a number.
fn number_given(value: Option<&str>) -> Option<Option<u64>>
    ensures { result ≡ read_if_given drill_number (option_map (λ word. word.now) value.entry) }
{
    match value {
        Some(word) => number(word).map(Some),
        None => Some(None),
    }
}

/// What is wanted by the matches of the words. None where a value isn't a number.
pub(crate) fn wanted_in(matches: &ArgMatches<'_>) -> Option<Wanted>
    ensures { result ≡ wanted_of_words (given_in (rows_of (found_of matches.now))) }
{
    let svg = is_true(word_of(matches, "svg"));
    match number_given(word_of(matches, "at")) {
        Some(at) => Some(Wanted { at, svg }),
        None => None,
    }
}

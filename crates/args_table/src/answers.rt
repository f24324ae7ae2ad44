//! What words ask for, in words: `usage`; or the command with its options, and behind it `to come` where the words aren't
//! in the grammar yet.

use fc_args::asked::{Asked, RunOptions};
use fc_args::reading::{read_in_full, read_words};
use std::alloc::{AllocError, Global};

/// A run with its options.
fn run_text(alloc: Global, options: RunOptions) -> Result<String, AllocError> {
    let kib = options.grain.kib();
    let mut text = format!(in alloc; "run {kib}")?;
    if options.trace {
        text.push_str(" trace")?;
    }
    if let Some(parts) = options.cache {
        write!(text, " cache {parts}")?;
    }
    Ok(text)
}

/// What is asked for.
fn asked_text(alloc: Global, asked: Asked) -> Result<String, AllocError> {
    match asked {
        Asked::Run(options) => run_text(alloc, options),
        Asked::Drill(number) => format!(in alloc; "drill {number}"),
        Asked::Check => format!(in alloc; "check"),
        Asked::Stop(call) => format!(in alloc; "stop {call}"),
    }
}

/// The words as they are handed to the program.
fn as_words<'a>(alloc: Global, words: &'a [String]) -> Result<Vec<&'a str>, AllocError> {
    let mut list = Vec::new(alloc);
    for word in words {
        list.push(word.as_str())?;
    }
    Ok(list)
}

/// What words ask for that aren't all built: `usage` where they aren't in the grammar at all.
fn to_come(alloc: Global, in_full: Option<Asked>) -> Result<String, AllocError> {
    match in_full {
        None => format!(in alloc; "usage"),
        Some(asked) => {
            let mut text = asked_text(alloc, asked)?;
            text.push_str(" to come")?;
            Ok(text)
        }
    }
}

/// What the words ask for.
pub fn answer_of(alloc: Global, words: &[String]) -> Result<String, AllocError> {
    let words = as_words(alloc, words)?;
    let Ok(in_full) = read_in_full(alloc, words.as_slice()) else {
        return Err(AllocError);
    };
    let Ok(now) = read_words(alloc, words.as_slice()) else {
        return Err(AllocError);
    };
    match now {
        Some(asked) => asked_text(alloc, asked),
        None => to_come(alloc, in_full),
    }
}

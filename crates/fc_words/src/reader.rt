//! The walk over the words of a line, from the left.

ghost use Rattle.std.specs.Prelude.{◌≡◌, ◌+◌, ◌^◌, ◌<◌, List, ℕ, length, find};
ghost use Rattle.fc_words.specs.Answers.{Answers, Leaves};
ghost use Rattle.fc_words.specs.Given.{is_wanted, nothing_given};
ghost use Rattle.fc_words.specs.Grammar.{family_of, operands_of, verb_of};
ghost use Rattle.fc_words.specs.Lines.{add_operand, add_option, begins_with, finish, named_line, not_here, read_word, read_words};
ghost use Rattle.fc_words.specs.Words.{words_of};

use crate::complete::complete;
use crate::given::{Given, Operands};
use crate::grammar::{LineOption, Operand, Verb};
use crate::refused::WordRefused;
use crate::words::split_word;
use fc_base::command::{Line, Scope};
use fc_base::fault::WordFault;
use std::alloc::Global;

/// Whether the word begins with the byte.
pub fn begins_with_byte(byte: u8, word: &[u8]) -> bool
    ensures { result ≡ begins_with byte word.now }
{
    !word.is_empty() && word[0] == byte
}

/// The next operand of the line.
fn next_operand(verb: Verb, operands: &Operands) -> Option<Operand>
    ensures { result ≡ find (is_wanted operands.now) (operands_of verb) }
{
    verb.operands()
        .iter()
        .copied()
        .find(|operand| operands.wants(*operand))
}

impl Given {
    /// Adds an option: it stands alone, or waits for its value.
    fn add_option(&mut self, option: Option<LineOption>, at: u32) -> Result<(), WordRefused>
        ensures { Leaves result self.new (add_option option at self.old) }
    {
        match option {
            None => Err(WordRefused::Fault(WordFault::UnknownOption(at))),
            Some(option) => {
                if self.has(option) {
                    return Err(WordRefused::Fault(WordFault::RepeatedOption(at)));
                }
                match option {
                    LineOption::Flag(flag) => self.flags.raise(flag),
                    LineOption::Setting(setting) => self.waiting = Some(setting),
                }
                Ok(())
            }
        }
    }

    /// Adds the next operand.
    fn add_operand(
        &mut self,
        alloc: Global,
        operand: Option<Operand>,
        word: &[u8],
        at: u32,
    ) -> Result<(), WordRefused>
        ensures { Leaves result self.new (add_operand operand at word.now self.old) }
    {
        match operand {
            None => Err(WordRefused::Fault(WordFault::UnknownOption(at))),
            Some(operand) => self.operands.take(alloc, operand, word, at),
        }
    }

    /// Reads one word.
    fn read_word(
        &mut self,
        alloc: Global,
        verb: Verb,
        word: &[u8],
        at: u32,
    ) -> Result<(), WordRefused>
        ensures { Leaves result self.new (read_word verb at word.now self.old) }
    {
        match self.waiting {
            Some(setting) => {
                self.waiting = None;
                self.settings.set(alloc, setting, word, at)
            }
            None => {
                if begins_with_byte(b'-', word) {
                    self.add_option(verb.option(word), at)
                } else {
                    let operand = next_operand(verb, &self.operands);
                    self.add_operand(alloc, operand, word, at)
                }
            }
        }
    }

    /// The line, at the end of the words.
    fn finish(self, verb: Verb, end: u32) -> Result<Line, WordRefused>
        ensures { Answers result (finish self.waiting verb end self) }
    {
        if self.waiting.is_some() {
            return Err(WordRefused::Fault(WordFault::MissingWord(end)));
        }
        match complete(verb, end, self) {
            Ok(line) => Ok(line),
            Err(fault) => Err(WordRefused::Fault(fault)),
        }
    }
}

/// The line of a verb and the words behind it, of which the first is number `first`.
fn read_words(alloc: Global, verb: Verb, first: u32, words: &[u8]) -> Result<Line, WordRefused>
    requires { first + length (words_of words.now) < 2 ^ 32 }
    ensures { Answers result (read_words verb first nothing_given (words_of words.now)) }
{
    let mut given = Given::nothing();
    let mut at = first;
    let mut rest = words;
    while let Some((word, behind)) = split_word(rest) {
        given.read_word(alloc, verb, word, at)?;
        rest = behind;
        at += 1;
    }
    given.finish(verb, at)
}

/// Why the scope doesn't have a line.
fn not_here_fault(scope: Scope) -> WordFault
    ensures { result ≡ not_here scope }
{
    match scope {
        Scope::NoActor => WordFault::NoActor,
        _ => WordFault::NotInBlock,
    }
}

/// The line that a first word names, with the words behind it, of which the first is number `first`.
pub fn read_named(
    alloc: Global,
    scope: Scope,
    name: &[u8],
    first: u32,
    words: &[u8],
) -> Result<Line, WordRefused>
    requires { first + length (words_of words.now) < 2 ^ 32 }
    ensures { Answers result (named_line scope (verb_of name.now) first (words_of words.now)) }
{
    match Verb::of(name) {
        None => Err(WordRefused::Fault(WordFault::UnknownCommand)),
        Some(verb) => {
            if verb.is_in(scope) {
                read_words(alloc, verb, first, words)
            } else {
                Err(WordRefused::Fault(not_here_fault(scope)))
            }
        }
    }
}

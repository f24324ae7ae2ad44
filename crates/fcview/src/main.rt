//! The program: a trace on standard input, the drawings of its chains on standard output.
//!
//!     fcview [--at N] [--svg]
//!
//! `--at N` draws entry N alone, `--svg` draws as SVG, each drawing behind a line `== NAME` with the name of its file (bin/fcview puts
//! them into files). It prints the drawings alone, and ends with the status's code (docs/MANUAL.md): 0 where all entries are right, 9
//! where one isn't or the input is no trace, 2 where the words aren't these, and 3 to 7 where viewing stopped. What is drawn is what
//! `view` of `fc_view` says of its canvas.
#![tactic(auto)]

mod codes;

use crate::codes::{NO_MEMORY, USAGE, code_of};
use fc_base::outcome::NoMemory;
use fc_drawing_text::svg_canvas::SvgCanvas;
use fc_drawing_text::text_canvas::TextCanvas;
use fc_io::sink::Sink;
use fc_io::source::Source;
use fc_io::std_sink::StdSink;
use fc_io::std_source::StdSource;
use fc_view::view::view;
use fc_view_args::reading::read_words;
use fc_view_args::wanted::Wanted;
use std::alloc::Global;
use std::env;
use std::process::ExitCode;

/// Draws the trace of a source into a sink: as SVG, or as text.
fn draw<S: Source, K: Sink + Drop>(alloc: Global, wanted: Wanted, source: &mut S, sink: K) -> u8 {
    if wanted.svg {
        code_of(view(alloc, source, wanted.at, &mut SvgCanvas::new(alloc, sink)))
    } else {
        code_of(view(alloc, source, wanted.at, &mut TextCanvas::new(alloc, sink)))
    }
}

/// Draws what the words ask for.
fn run<S: Source, K: Sink + Drop>(alloc: Global, words: &[&str], source: &mut S, sink: K) -> u8 {
    match read_words(alloc, words) {
        Ok(Some(wanted)) => draw(alloc, wanted, source, sink),
        Ok(None) => USAGE,
        Err(NoMemory) => NO_MEMORY,
    }
}

fn main(rt: HostRuntime) -> ExitCode {
    let alloc = rt.alloc();
    let Ok(arguments) = env::args(&rt) else {
        return ExitCode::from(USAGE);
    };
    let mut texts: Vec<String> = Vec::new(alloc);
    for argument in arguments.skip(1) {
        if texts.push(argument).is_err() {
            return ExitCode::from(NO_MEMORY);
        }
    }
    let mut words: Vec<&str> = Vec::new(alloc);
    for text in &texts {
        if words.push(text.as_str()).is_err() {
            return ExitCode::from(NO_MEMORY);
        }
    }
    let Ok(mut source) = StdSource::new(alloc, rt.stdin().lock()) else {
        return ExitCode::from(NO_MEMORY);
    };
    let Ok(sink) = StdSink::new(alloc, rt.stdout()) else {
        return ExitCode::from(NO_MEMORY);
    };
    ExitCode::from(run(alloc, &words, &mut source, sink))
}

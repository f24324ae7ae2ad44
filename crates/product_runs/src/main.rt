//! Programs that run the whole product over disks in memory and print what came of it, as four parts of one program.
//!
//! `traces` prints what sessions do beside their texts, `plain` compares reads with plain volumes, `blocks` has the histories of
//! blocks judged, and `presets` compares presets with the lines that they stand for. Without words the program does all four, one
//! after the other, each under a line `== traces` and so on. With the name of a part it does that one alone, without such a line;
//! with `together RUNS` it runs the session of that name so often, and prints also how many different histories there were.
//!
//! In reading order: `running` (a session is run), `draws` (draws by a number), the four parts, `asked` (which of them), and this
//! file.
#![tactic(auto)]

mod asked;
mod blocks;
mod draws;
mod plain;
mod presets;
mod running;
mod traces;

use crate::asked::{Asked, asked_by};
use crate::blocks::{run_blocks, run_together};
use crate::plain::run_plain;
use crate::presets::run_presets;
use crate::traces::run_traces;
use std::alloc::Global;
use std::sync::Wait;
use std::thread::Threads;
use std::{env, io};

/// Does all four parts.
fn run_all<R: Threads + Wait + Sync + Input + Print>(rt: &R, alloc: Global) -> io::Result<()> {
    println!(rt; "== traces")?;
    run_traces(rt, alloc)?;
    println!(rt; "== plain")?;
    run_plain(rt, alloc)?;
    println!(rt; "== blocks")?;
    run_blocks(rt, alloc)?;
    println!(rt; "== presets")?;
    run_presets(rt, alloc)
}

/// What the program's words ask for.
fn words_of(rt: &HostRuntime) -> io::Result<Asked> {
    let mut words = env::args(rt)?.skip(1);
    Ok(asked_by(words.next(), words.next()))
}

fn main(rt: HostRuntime) -> io::Result<()> {
    let alloc = rt.alloc();
    match words_of(&rt)? {
        Asked::All => run_all(&rt, alloc),
        Asked::Traces => run_traces(&rt, alloc),
        Asked::Plain => run_plain(&rt, alloc),
        Asked::Blocks => run_blocks(&rt, alloc),
        Asked::Presets => run_presets(&rt, alloc),
        Asked::Together(runs) => run_together(&rt, alloc, runs),
        Asked::Unknown => println!(rt; "product_runs [traces|plain|blocks|presets|together RUNS]"),
    }
}

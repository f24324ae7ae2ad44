//! Prints the program's help, as `clap` makes it of the one table of commands and options: what `bin/flashcopy --help`
//! has to say of them.
#![tactic(auto)]

use fc_args::help::help_text;
use std::io;

fn main(rt: HostRuntime) -> io::Result<()> {
    let help = help_text(rt.alloc())?;
    print!(rt; "{help}")
}

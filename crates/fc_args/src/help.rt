//! The program's help: what `clap` prints of its commands, and of each in turn.

use crate::program::{check_command, drill_command, program, run_command, stop_command};
use crate::table;
use clap::Command;
use std::alloc::{AllocError, Global};

/// The help of a command, once that is made.
fn help_of(made: Result<Command<'_>, AllocError>) -> Result<String, AllocError> {
    match made {
        Ok(mut command) => command.render_help(),
        Err(refused) => Err(refused),
    }
}

/// A command as its own help is headed: by this name, and without the option that asks for help.
fn named<'a>(made: Result<Command<'a>, AllocError>, name: &str) -> Result<Command<'a>, AllocError> {
    match made {
        Ok(command) => command.disable_help_flag(true).bin_name(name),
        Err(refused) => Err(refused),
    }
}

/// Adds the help of a command behind that of the program.
fn add_help(
    text: &mut String,
    made: Result<Command<'_>, AllocError>,
    name: &str,
) -> Result<(), AllocError> {
    let help = help_of(named(made, name))?;
    text.push_str("\n")?;
    text.push_str(help.as_str())
}

/// Adds the help of each command that is built.
fn add_commands(text: &mut String, alloc: Global) -> Result<(), AllocError> {
    add_help(text, run_command(alloc), "flashcopy run")?;
    add_help(text, drill_command(alloc), "flashcopy drill")?;
    if table::CHECK_IS_BUILT {
        add_help(text, Ok(check_command(alloc)), "flashcopy check")?;
    }
    if table::STOP_IS_BUILT {
        add_help(text, stop_command(alloc), "flashcopy stop")?;
    }
    Ok(())
}

/// The help of the program and of each of its commands that is built.
pub fn help_text(alloc: Global) -> Result<String, AllocError> {
    let mut text = help_of(program(alloc))?;
    add_commands(&mut text, alloc)?;
    Ok(text)
}

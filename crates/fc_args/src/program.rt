//! The program's commands and options, as `clap` has them, with their help.

ghost use Rattle.std.specs.Prelude.{◌≡◌, IfOk, codes, false, []};
ghost use Rattle.clap.specs.Words.{App, app_of, rule_of, new_app, with_subcommand};
ghost use Rattle.clap.specs.declared.builder.command.Command.TheViews.{out-Command as fields_of};
ghost use Rattle.fc_args.specs.Program.{flashcopy, run_app, numbered_app, valued_rule, flag_rule, number_rule, top_shape};

use crate::table;
use clap::{Arg, ArgAction, Command};
use std::alloc::{AllocError, Global};

/// An option that has a value: `--name VALUE`.
fn valued_option<'a>(alloc: Global, name: &'a str, value: &'a str, help: &'a str) -> Arg<'a>
    ensures rule { rule_of result ≡ valued_rule name.entry.now }
    ensures local { result.global ≡ false }
{
    Arg::new(alloc, name)
        .long(name)
        .action(ArgAction::Set)
        .value_name(value)
        .help(help)
}

/// An option that has none: `--name`.
fn flag<'a>(alloc: Global, name: &'a str, help: &'a str) -> Arg<'a>
    ensures rule { rule_of result ≡ flag_rule name.entry.now }
    ensures local { result.global ≡ false }
{
    Arg::new(alloc, name)
        .long(name)
        .action(ArgAction::SetTrue)
        .help(help)
}

/// An argument that stands in help where it is built.
fn shown_if_built<'a>(arg: Arg<'a>, is_built: bool) -> Arg<'a>
    ensures rule { rule_of result ≡ rule_of arg.entry }
    ensures local { result.global ≡ arg.entry.global }
{
    arg.hide(!is_built)
}

/// A command that stands in help where it is built.
fn command_if_built<'a>(alloc: Global, name: &'a str, help: &'a str, is_built: bool) -> Command<'a>
    ensures app { app_of result ≡ new_app name.entry.now }
    ensures local { (fields_of result).has_globals ≡ false }
{
    Command::new(alloc, name).about(help).hide(!is_built)
}

/// The number of a command.
fn number<'a>(alloc: Global, value: &'a str, help: &'a str) -> Arg<'a>
    ensures rule { rule_of result ≡ number_rule }
    ensures local { result.global ≡ false }
{
    Arg::new(alloc, "number")
        .action(ArgAction::Set)
        .required(true)
        .value_name(value)
        .help(help)
}

/// `run`, with its options.
pub(crate) fn run_command<'a>(alloc: Global) -> Result<Command<'a>, AllocError>
    ensures { IfOk result (λ c. (app_of c ≡ run_app) × ((fields_of c).has_globals ≡ false)) }
{
    command_if_built(alloc, "run", table::RUN_HELP, true)
        .arg(valued_option(alloc, "grain", "64|256", table::GRAIN_HELP))?
        .arg(shown_if_built(
            flag(alloc, "trace", table::TRACE_HELP),
            table::TRACE_IS_BUILT,
        ))?
        .arg(shown_if_built(
            valued_option(alloc, "cache", "N", table::CACHE_HELP),
            table::CACHE_IS_BUILT,
        ))
}

/// `drill`, with its number.
pub(crate) fn drill_command<'a>(alloc: Global) -> Result<Command<'a>, AllocError>
    ensures { IfOk result (λ c. (app_of c ≡ numbered_app (codes "drill")) × ((fields_of c).has_globals ≡ false)) }
{
    let number = number(alloc, "N", table::DRILL_NUMBER_HELP);
    command_if_built(alloc, "drill", table::DRILL_HELP, true).arg(number)
}

/// `check`.
pub(crate) fn check_command<'a>(alloc: Global) -> Command<'a>
    ensures app { app_of result ≡ new_app (codes "check") }
    ensures local { (fields_of result).has_globals ≡ false }
{
    command_if_built(alloc, "check", table::CHECK_HELP, table::CHECK_IS_BUILT)
}

/// `stop`, with its call.
pub(crate) fn stop_command<'a>(alloc: Global) -> Result<Command<'a>, AllocError>
    ensures { IfOk result (λ c. (app_of c ≡ numbered_app (codes "stop")) × ((fields_of c).has_globals ≡ false)) }
{
    let call = number(alloc, "K", table::STOP_CALL_HELP);
    command_if_built(alloc, "stop", table::STOP_HELP, table::STOP_IS_BUILT).arg(call)
}

/// The program before it has commands.
fn program_alone<'a>(alloc: Global) -> Command<'a>
    ensures app { app_of result ≡ record { top = top_shape; subs = [] } }
    ensures local { (fields_of result).has_globals ≡ false }
{
    Command::new(alloc, "flashcopy")
        .about(table::PROGRAM_HELP)
        .no_binary_name(true)
        .disable_help_flag(true)
        .disable_help_subcommand(true)
        .disable_version_flag(true)
        .subcommand_required(true)
}

/// The program with one more command, once both are made.
fn with_command<'a>(
    program: Result<Command<'a>, AllocError>,
    made: Result<Command<'a>, AllocError>,
) -> Result<Command<'a>, AllocError>
    ensures { (whole part : App) → IfOk program.entry (λ c. app_of c ≡ whole) →
        IfOk made.entry (λ c. (app_of c ≡ part) × ((fields_of c).has_globals ≡ false)) →
        IfOk result (λ c. app_of c ≡ with_subcommand whole part.top) }
{
    match program {
        Ok(program) => match made {
            Ok(command) => program.subcommand(command),
            Err(refused) => Err(refused),
        },
        Err(refused) => Err(refused),
    }
}

/// The program: all its commands, those to come among them.
pub(crate) fn program<'a>(alloc: Global) -> Result<Command<'a>, AllocError>
    ensures { IfOk result (λ c. app_of c ≡ flashcopy) }
{
    let program = with_command(Ok(program_alone(alloc)), run_command(alloc));
    let program = with_command(program, drill_command(alloc));
    let program = with_command(program, Ok(check_command(alloc)));
    with_command(program, stop_command(alloc))
}

//! The viewer's command and its options, as `clap` has them.

ghost use Rattle.std.specs.Prelude.{◌≡◌, IfOk, codes, false};
ghost use Rattle.clap.specs.Words.{app_of, rule_of};
ghost use Rattle.clap.specs.declared.builder.command.Command.TheViews.{out-Command as fields_of};
ghost use Rattle.fc_args.specs.Program.{flag_rule, valued_rule};
ghost use Rattle.fc_view_args.specs.Command.{bare, viewer};

use clap::{Arg, ArgAction, Command};
use std::alloc::{AllocError, Global};

/// `--at NUMBER`.
fn at_option<'a>(alloc: Global) -> Arg<'a>
    ensures rule { rule_of result ≡ valued_rule (codes "at") }
    ensures local { result.global ≡ false }
{
    Arg::new(alloc, "at")
        .long("at")
        .action(ArgAction::Set)
        .value_name("N")
}

/// `--svg`.
fn svg_option<'a>(alloc: Global) -> Arg<'a>
    ensures rule { rule_of result ≡ flag_rule (codes "svg") }
    ensures local { result.global ≡ false }
{
    Arg::new(alloc, "svg")
        .long("svg")
        .action(ArgAction::SetTrue)
}

/// The command before it has options.
fn bare_command<'a>(alloc: Global) -> Command<'a>
    ensures app { app_of result ≡ bare }
    ensures local { (fields_of result).has_globals ≡ false }
{
    Command::new(alloc, "fcview")
        .no_binary_name(true)
        .disable_help_flag(true)
        .disable_version_flag(true)
}

/// The command, with its options.
pub(crate) fn command<'a>(alloc: Global) -> Result<Command<'a>, AllocError>
    ensures { IfOk result (λ c. app_of c ≡ viewer) }
{
    match bare_command(alloc).arg(at_option(alloc)) {
        Ok(command) => command.arg(svg_option(alloc)),
        Err(refused) => Err(refused),
    }
}

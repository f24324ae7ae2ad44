//! What commands leave.

ghost use Rattle.std.specs.Prelude.{◌≡◌, ◌≢◌, ◌⊎◌, ◌↔◌, IsTrue, OnOk};
ghost use Rattle.fc_base.specs.declared.request.Reply.TheVariants.{NoMemory as WantsMemory};
ghost use Rattle.fc_books.specs.Deciding.{settle};
ghost use Rattle.fc_control.specs.Dispatch.{is_decided};
ghost use Rattle.fc_legal.specs.Steps.{CommandStep};
ghost use Rattle.fc_check_follow.specs.Following.{Came, IsOpen, IsSettled, IsOfCommand, DoesNothing, LeavesAll, LeavesSettled, LeavesDecided};

use crate::apart::{has_no_effects, is_of_command, wants_memory};
use crate::effects::behind;
use crate::refused::keep_one_more;
use fc_base::command::Command;
use fc_base::decision::Decision;
use fc_base::outcome::NoMemory;
use fc_base::request::Effect;
use fc_check_record::Record;
use fc_check_same::same::{Same, all_same};
use fc_entry::entry::Entry;
use std::alloc::Global;

/// Whether a decision does nothing.
fn does_nothing(decision: &Decision) -> bool
    ensures { IsTrue result ↔ DoesNothing decision.now }
{
    decision.effects.as_slice().is_empty()
        && decision.events.as_slice().is_empty()
        && decision.changes.as_slice().is_empty()
}

/// Goes on behind a command that had no memory and left all as it was: there is a way where its entry has no effects.
fn follow_unsettled(way: Record, entry: &Entry, after: &mut Vec<Record>) -> Result<(), NoMemory>
    requires { IsOpen way.whole }
    ensures { OnOk result (Came way.grain (LeavesAll way.whole entry.now) after.old.items after.new.items) }
{
    if has_no_effects(entry) {
        keep_one_more(way, after)
    } else {
        Ok(())
    }
}

/// Goes on behind a command that had no memory and left all settled: there is a way where its entry has the effects of the
/// settling.
fn follow_settled(
    alloc: Global,
    way: &Record,
    settling: &Decision,
    entry: &Entry,
    after: &mut Vec<Record>,
) -> Result<(), NoMemory>
    requires way { IsOpen way.now.whole }
    requires settling { settling.now ≡ settle way.now.whole.books }
    ensures { OnOk result (Came way.now.grain (LeavesSettled way.now.grain way.now.whole entry.now) after.old.items after.new.items) }
{
    if !entry.effects.is_same(&settling.effects) {
        return Ok(());
    }
    let copied = way.copy(alloc)?;
    let settled = copied.leave(alloc, settling)?;
    keep_one_more(settled, after)
}

/// Goes on behind a command that had no memory. Where settling does nothing, both ways are one.
fn follow_wanting(
    alloc: Global,
    way: Record,
    entry: &Entry,
    after: &mut Vec<Record>,
) -> Result<(), NoMemory>
    requires { IsOpen way.whole }
    ensures { OnOk result (Came way.grain (λ next. LeavesAll way.whole entry.now next ⊎ LeavesSettled way.grain way.whole entry.now next) after.old.items after.new.items) }
{
    let settling = way.settle(alloc)?;
    if does_nothing(&settling) {
        return follow_unsettled(way, entry, after);
    }
    follow_settled(alloc, &way, &settling, entry, after)?;
    follow_unsettled(way, entry, after)
}

/// Whether an entry answers as was decided, with these effects behind those of the settling.
fn answers(decision: &Decision, entry: &Entry, effects: &[Effect]) -> bool
    ensures { IsTrue result ↔ ((entry.now.reply ≡ decision.now.reply) × (effects.now ≡ decision.now.effects)) }
{
    entry.reply.is_same(&decision.reply) && all_same(effects, decision.effects.as_slice())
}

/// Goes on behind a command that was decided on settled books: there is a way where its entry answers so, with these effects
/// behind those of the settling.
fn follow_decision(
    alloc: Global,
    way: Record,
    command: &Command,
    entry: &Entry,
    effects: &[Effect],
    after: &mut Vec<Record>,
) -> Result<(), NoMemory>
    requires settled { IsSettled way }
    requires decided { IsTrue (is_decided command.now) }
    ensures { OnOk result (Came way.grain (LeavesDecided way.grain way.whole command.now entry.now.reply effects.now) after.old.items after.new.items) }
{
    let decision = way.decide(alloc, command)?;
    if !answers(&decision, entry, effects) {
        return Ok(());
    }
    let left = way.leave(alloc, &decision)?;
    keep_one_more(left, after)
}

/// Goes on behind a command that had the memory that it wanted: settled first, and then decided.
fn follow_decided(
    alloc: Global,
    way: Record,
    command: &Command,
    entry: &Entry,
    after: &mut Vec<Record>,
) -> Result<(), NoMemory>
    requires way { IsOpen way.whole }
    requires decided { IsTrue (is_decided command.now) }
    requires of_command { IsOfCommand entry.now }
    requires answered { entry.now.reply ≢ WantsMemory }
    ensures { OnOk result (Came way.grain (CommandStep way.grain way.whole command.now entry.now) after.old.items after.new.items) }
{
    let settling = way.settle(alloc)?;
    match behind(settling.effects.as_slice(), entry.effects.as_slice()) {
        Some(effects) => {
            let settled = way.leave(alloc, &settling)?;
            follow_decision(alloc, settled, command, entry, effects, after)
        }
        None => Ok(()),
    }
}

/// Goes on behind a command: there is a way for each that it may have left, by its reply and its effects.
pub(crate) fn follow_command(
    alloc: Global,
    way: Record,
    command: &Command,
    entry: &Entry,
    after: &mut Vec<Record>,
) -> Result<(), NoMemory>
    requires way { IsOpen way.whole }
    requires decided { IsTrue (is_decided command.now) }
    ensures { OnOk result (Came way.grain (CommandStep way.grain way.whole command.now entry.now) after.old.items after.new.items) }
{
    if !is_of_command(entry) {
        return Ok(());
    }
    if wants_memory(&entry.reply) {
        follow_wanting(alloc, way, entry, after)
    } else {
        follow_decided(alloc, way, command, entry, after)
    }
}

//! One way and one entry.

ghost use Rattle.std.specs.Prelude.{◌≡◌, OnOk};
ghost use Rattle.fc_legal.specs.Steps.{CommandIsRight, Step};
ghost use Rattle.fc_check_lane.specs.Next.{IsOfLanes};
ghost use Rattle.fc_check_follow.specs.Following.{Came, IsOpen};

use crate::command::follow_command;
use crate::refused::{follow_access, follow_preset, follow_refusal, keep};
use fc_base::command::Command;
use fc_base::fault::Refusal;
use fc_base::outcome::NoMemory;
use fc_base::request::Request;
use fc_check_record::Record;
use fc_entry::entry::Entry;
use std::alloc::Global;

/// Goes on behind an entry of a lane.
fn follow_lane(
    alloc: Global,
    way: Record,
    entry: &Entry,
    after: &mut Vec<Record>,
) -> Result<(), NoMemory>
    requires way { IsOpen way.whole }
    requires of_lanes { IsOfLanes entry.now.request }
    ensures { OnOk result (Came way.grain (Step way.grain way.whole entry.now) after.old.items after.new.items) }
{
    let right = way.is_next(alloc, entry)?;
    if !right {
        return Ok(());
    }
    let next = way.after_lane(alloc, entry)?;
    keep(next, after)
}

/// Goes on behind an entry of a line that is a command, `read`, `write` or `mkpreset`.
fn follow_line(
    alloc: Global,
    way: Record,
    command: &Command,
    entry: &Entry,
    after: &mut Vec<Record>,
) -> Result<(), NoMemory>
    requires { IsOpen way.whole }
    ensures { OnOk result (Came way.grain (CommandIsRight way.grain way.whole command.now entry.now) after.old.items after.new.items) }
{
    match command {
        Command::Read {
            volume,
            block,
            count,
        } => follow_access(way, volume, *block, *count, entry, after),
        Command::Write {
            volume,
            block,
            count,
            ..
        } => follow_access(way, volume, *block, *count, entry, after),
        Command::Mkpreset { source, .. } => follow_preset(way, source, entry, after),
        _ => follow_command(alloc, way, command, entry, after),
    }
}

/// Goes on with one way behind an entry with the next number: to the ways after it come just those that may be told so, none where
/// the entry is no right step from it. What was told in the way was reached by right entries, fewer than 2^18. Refused for want of
/// memory alone; then some of the ways may have come.
pub fn follow_way(
    alloc: Global,
    way: Record,
    entry: &Entry,
    after: &mut Vec<Record>,
) -> Result<(), NoMemory>
    requires way { IsOpen way.whole }
    requires number { entry.now.number ≡ way.whole.entries }
    ensures { OnOk result (Came way.grain (Step way.grain way.whole entry.now) after.old.items after.new.items) }
{
    match &entry.request {
        Request::Command(command) => follow_line(alloc, way, command, entry, after),
        Request::Unread(fault) => follow_refusal(way, &Refusal::Words(*fault), entry, after),
        _ => follow_lane(alloc, way, entry, after),
    }
}

//! What a decision leaves.

ghost use Rattle.std.specs.Prelude.{◌≡◌, ◌≤◌, IfOk, OnOk, length, filter};
ghost use Rattle.fc_desk.specs.Changes.{AreCountable, FitChanges, adds};
ghost use Rattle.fc_legal.specs.Steps.{left_by};
ghost use Rattle.fc_check_record.specs.Leaving.{AreBooksLeft, CanBeLeft, chains_left, known_left};

use crate::chains::follow_events;
use crate::pools::take_for_all;
use crate::record::Record;
use crate::tables::renew;
use fc_base::decision::Decision;
use fc_base::outcome::NoMemory;
use fc_check_lane::Known;
use fc_check_rows::Rows;
use fc_desk::Control;
use std::alloc::Global;

/// The tables, next ids and background work become those after a decision. Refused for want of memory alone.
fn leave_control(alloc: Global, control: &mut Control, decision: &Decision) -> Result<(), NoMemory>
    requires one { length (filter adds decision.now.changes) ≤ 1 }
    requires fits { FitChanges control.old.tables decision.now.changes }
    requires countable { AreCountable decision.now.changes }
    ensures books { OnOk result (AreBooksLeft control.old control.new decision.now) }
    ensures grain { OnOk result (control.new.grain ≡ control.old.grain) }
{
    control.reserve(alloc, decision)?;
    control.apply(decision);
    Ok(())
}

/// What entries of lanes are judged by, and what is kept of incremental mappings, become what they are after a
/// decision that made the control part what it is now. Refused for want of memory alone where births stay below
/// 2^64; then a part of it may be done.
fn leave_known(
    alloc: Global,
    control: &Control,
    known: &mut Known,
    rows: &mut Rows,
    decision: &Decision,
) -> Result<(), NoMemory>
    ensures known { OnOk result (known.new ≡ known_left control.now known.old rows.old decision.now) }
    ensures rows { OnOk result (rows.new ≡ (chains_left known.old rows.old decision.now).rows) }
{
    follow_events(alloc, &mut known.sheet, rows, decision.events.as_slice())?;
    known
        .picture
        .apply(alloc, known.grain, decision.effects.as_slice())?;
    renew(alloc, control, known)
}

impl Record {
    /// What is told after a decision: the tables, next ids and background work by its changes and events,
    /// chains, disks left, the memory that grains occupy and what is kept of incremental mappings by its events, plain
    /// volumes by its effects.
    /// Refused for want of memory alone, since births stay below 2^64 (`CanBeLeft`); then the record is gone.
    pub fn leave(self, alloc: Global, decision: &Decision) -> Result<Record, NoMemory>
        requires { CanBeLeft self.whole decision.now }
        ensures { IfOk result (λ left. left ≡ record { grain = self.grain; whole = left_by self.grain self.whole decision.now }) }
    {
        let Record { mut kept } = self;
        leave_control(alloc, &mut kept.control, decision)?;
        leave_known(
            alloc,
            &kept.control,
            &mut kept.known,
            &mut kept.rows,
            decision,
        )?;
        kept.rooms.follow_events(alloc, decision.events.as_slice())?;
        take_for_all(kept.pools.as_mut_slice(), decision.events.as_slice());
        Ok(Record { kept })
    }
}

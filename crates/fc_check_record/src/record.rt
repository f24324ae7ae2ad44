//! The record: the first one, and copies of it.

ghost use Rattle.std.specs.Prelude.{◌≡◌, ◌+◌, ◌<◌, [], IfOk, length, replicate};
ghost use Rattle.fc_check_sheet.specs.View.{pools_of};
ghost use Rattle.fc_legal.specs.Steps.{one_more};
ghost use Rattle.fc_legal.specs.Whole.{opened};

use fc_base::outcome::NoMemory;
use fc_base::size::GrainSize;
use fc_check_lane::{Known, copy_items};
use fc_check_rooms::Rooms;
use fc_check_rows::Rows;
use fc_check_sheet::LanePool;
use fc_desk::Control;
use std::alloc::Global;
use std::marker::Model;

/// What a record keeps.
pub(crate) struct Kept {
    /// The tables, the ids that come next, and background work.
    pub(crate) control: Control,
    /// What entries of lanes are judged by.
    pub(crate) known: Known,
    /// The changed grains of incremental mappings.
    pub(crate) rows: Rows,
    /// For each lane the disks that it has for new volumes.
    pub(crate) pools: Vec<LanePool>,
    /// Which grains of volumes occupy memory.
    pub(crate) rooms: Rooms,
    /// For each lane how many calls its entries made on disks.
    pub(crate) calls: Vec<u64>,
}

impl Drop for Kept {
    // Written out, so that a function that drops it has one call for all of it in its proof.
    fn drop(self) {
        let Kept {
            control: _,
            known: _,
            rows: _,
            pools: _,
            rooms: _,
            calls: _,
        } = self;
    }
}

/// One way that all may have been told.
#[derive(Drop)]
pub struct Record {
    pub(crate) kept: Kept,
}

impl Model for Record {
    ghost use Rattle.fc_check_sheet.specs.View.{pools_of};
    ghost use Rattle.fc_check_record.specs.Judged.{AreOne, Judged, whole_of};

    ghost Value = { Judged };

    ghost view = { λ r. record { grain = r.kept.known.grain; whole = whole_of r.kept.control r.kept.known r.kept.rows (pools_of r.kept.pools.items) r.kept.rooms r.kept.calls.items } };

    ghost invariant = { λ r. AreOne r.kept.control r.kept.known r.kept.calls.items };
}

/// No calls of so many lanes.
fn no_calls(alloc: Global, lanes: usize) -> Result<Vec<u64>, NoMemory>
    ensures { IfOk result (λ calls. calls.items ≡ replicate lanes 0) }
{
    match vec![in alloc; 0; lanes] {
        Ok(calls) => Ok(calls),
        Err(_) => Err(NoMemory),
    }
}

impl Record {
    /// What is told before the first entry, over these disks for new volumes, lane by lane. Refused for want of
    /// memory alone.
    pub fn open(alloc: Global, grain: GrainSize, lanes: &[LanePool]) -> Result<Record, NoMemory>
        requires { 0 < length lanes.now }
        ensures { IfOk result (λ opened_record. opened_record ≡ record { grain = grain; whole = record (opened (pools_of lanes.now)) { actors = [] } }) }
    {
        let known = Known::new(alloc, grain, lanes.len())?;
        let pools = copy_items(alloc, lanes)?;
        let calls = no_calls(alloc, lanes.len())?;
        let kept = Kept {
            control: Control::new(alloc, grain),
            known,
            rows: Rows::new(alloc),
            pools,
            rooms: Rooms::new(alloc),
            calls,
        };
        Ok(Record { kept })
    }

    /// Another record of the same. Refused for want of memory alone.
    pub fn copy(&self, alloc: Global) -> Result<Record, NoMemory>
        ensures { IfOk result (λ copy. copy ≡ self.now) }
    {
        let known = self.kept.known.copy(alloc)?;
        let rows = self.kept.rows.copy(alloc)?;
        let rooms = self.kept.rooms.copy(alloc)?;
        let pools = copy_items(alloc, self.kept.pools.as_slice())?;
        let calls = copy_items(alloc, self.kept.calls.as_slice())?;
        let control = self.kept.control.copy(alloc)?;
        let kept = Kept {
            control,
            known,
            rows,
            pools,
            rooms,
            calls,
        };
        Ok(Record { kept })
    }

    /// One more entry is told, that did nothing: a refused access, an unread line, or one that ends a command.
    pub fn one_more(&mut self)
        requires { self.old.whole.entries < 262144 }
        ensures { self.new ≡ record self.old { whole = one_more self.old.whole } }
    {
        let known = &mut self.kept.known;
        known.entries += 1;
    }
}

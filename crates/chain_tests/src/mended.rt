//! Lists of slots are mended through all events behind which no slot stands farther than one place from where it stood, so that
//! they are sorted anew only behind others.

ghost use Rattle.std.specs.Prelude.{◌+◌, ◌^◌, ◌<◌, ◌≤◌, OnOk};
ghost use Rattle.fc_events.specs.Room.{slots_made as made_by};

use crate::commands::Command::{self, Detach, Drop, Make, Remove, Retire, Split, Start};
use crate::commands::{A, B, C};
use fc_base::decision::LaneEvent;
use fc_base::outcome::NoMemory;
use fc_events::events::step;
use fc_events::room::{slots_made, widest};
use fc_events::table::SlotTable;
use fc_places::index::{By, Entry};
use fc_places::mend::mend;
use std::alloc::Global;
use std::process::Abort;
use std::test::Fail;

/// Commands of each kind.
const COMMANDS: [Command; 11] = [
    Make(A),
    Make(B),
    Make(C),
    Start(1, A, B),
    Start(0, A, C),
    Retire(0),
    Split(1),
    Drop(4),
    Start(2, A, B),
    Detach(2),
    Remove(A),
];

/// Makes room for the event and does it, in a lane that has every grain.
fn apply(rt: &impl Abort, table: &mut SlotTable, event: LaneEvent) -> Result<(), NoMemory>
    requires few { made_by event ≤ 2 }
    requires births { table.old.sheet.births + 2 < 2 ^ 64 }
    ensures { OnOk result (table.new.sheet.births ≤ table.old.sheet.births + 2) }
{
    let events = [event];
    let slots = slots_made(&events).expect(rt, "few slots");
    table.make_room(slots, widest(&events, 0, 1))?;
    step(table, &events[0], 0, 1);
    Ok(())
}

/// A list is mended through commands of each kind.
fn assert_mended(rt: &impl Abort, alloc: Global, by: By) -> Result<(), Fail> {
    let mut table = SlotTable::new(alloc);
    let mut entries: Vec<Entry> = Vec::with_capacity(alloc, 8)?;
    for command in &COMMANDS {
        apply(rt, &mut table, command.event(alloc)?)?;
        assert!(rt; mend(&mut entries, table.as_slice(), by));
    }
    Ok(())
}

#[test]
fn lists_are_mended(rt: HostRuntime) -> Result<(), Fail> {
    assert_mended(&rt, rt.alloc(), By::Birth)?;
    assert_mended(&rt, rt.alloc(), By::Mapping)?;
    assert_mended(&rt, rt.alloc(), By::Volume)
}

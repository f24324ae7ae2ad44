//! What the events of a decision do to chains, and to what is kept of incremental mappings.

ghost use Rattle.std.specs.Prelude.{◌≡◌, [], IfOk, OnOk, OnErr, fold};
ghost use Rattle.fc_base.specs.Sheet.{no_slots};
ghost use Rattle.fc_base.specs.declared.decision.LaneEvent.TheVariants.{Trigger};
ghost use Rattle.fc_base.specs.SheetStep.{sheet_step};
ghost use Rattle.fc_books.specs.After.{begun};
ghost use Rattle.fc_follow.specs.Following.{restarts, rows_event};
ghost use Rattle.fc_check_record.specs.Chains.{chains_after, chains_event};

use fc_base::decision::LaneEvent;
use fc_base::outcome::NoMemory;
use fc_base::request::Pair;
use fc_check_rows::Rows;
use fc_model::PlainSheet;
use std::alloc::Global;
use std::mem;

/// Chains, and the changed grains of incremental mappings.
#[derive(Drop)]
pub struct Chains {
    /// The chains of copies.
    pub sheet: PlainSheet,
    /// What is kept of incremental mappings.
    pub rows: Rows,
}

/// The new slots of a trigger's mappings hold their restart sets.
fn begin_pairs(sheet: &mut PlainSheet, rows: &Rows, pairs: &[Pair])
    ensures { sheet.new ≡ fold (begun (restarts rows.now)) sheet.old pairs.now }
{
    for pair in pairs {
        sheet.begin_with(pair.map, rows.restart(pair.map));
    }
}

impl Chains {
    /// What an event notes, and what it does to the slots; the new slots of a trigger are empty yet.
    fn step(&mut self, alloc: Global, event: &LaneEvent) -> Result<(), NoMemory>
        ensures { OnOk result (self.new ≡ record { sheet = sheet_step (λ grains. grains) self.old.sheet event.now; rows = rows_event self.old.sheet.slots self.old.rows event.now }) }
    {
        self.rows.follow_event(alloc, &self.sheet, event)?;
        self.sheet.step_all(alloc, event)
    }

    /// A trigger, whose new slots hold the restart sets that were kept before it.
    fn trigger(&mut self, alloc: Global, event: &LaneEvent, pairs: &[Pair]) -> Result<(), NoMemory>
        requires { event.now ≡ Trigger pairs.now }
        ensures { OnOk result (self.new ≡ chains_event self.old event.now) }
    {
        let before = self.rows.copy(alloc)?;
        self.step(alloc, event)?;
        begin_pairs(&mut self.sheet, &before, pairs);
        Ok(())
    }

    /// An event.
    fn event(&mut self, alloc: Global, event: &LaneEvent) -> Result<(), NoMemory>
        ensures { OnOk result (self.new ≡ chains_event self.old event.now) }
    {
        match event {
            LaneEvent::Trigger { pairs } => self.trigger(alloc, event, pairs.as_slice()),
            _ => self.step(alloc, event),
        }
    }

    /// Events, in order. Refused for want of memory alone where births stay below 2^64; then a part of them may
    /// be done.
    pub fn events(&mut self, alloc: Global, events: &[LaneEvent]) -> Result<(), NoMemory>
        ensures { OnOk result (self.new ≡ chains_after self.old events.now) }
    {
        for event in events {
            self.event(alloc, event)?;
        }
        Ok(())
    }
}

/// Does events to chains and to what is kept of incremental mappings, in order. Refused for want of memory alone
/// where births stay below 2^64; then none of either is left.
pub(crate) fn follow_events(
    alloc: Global,
    sheet: &mut PlainSheet,
    rows: &mut Rows,
    events: &[LaneEvent],
) -> Result<(), NoMemory>
    ensures sheet { OnOk result (sheet.new ≡ (chains_after record { sheet = sheet.old; rows = rows.old } events.now).sheet) }
    ensures rows { OnOk result (rows.new ≡ (chains_after record { sheet = sheet.old; rows = rows.old } events.now).rows) }
    ensures err { OnErr result ((sheet.new ≡ no_slots) × (rows.new ≡ [])) }
{
    let mut chains = Chains {
        sheet: mem::replace(sheet, PlainSheet::new(alloc)),
        rows: mem::replace(rows, Rows::new(alloc)),
    };
    chains.events(alloc, events)?;
    *sheet = chains.sheet;
    *rows = chains.rows;
    Ok(())
}

//! One step of the history.

use fc_base::decision::LaneEvents;
use fc_base::list::List;
use fc_base::request::{Effect, Move, Place, Reply, Request, Torn, WritePart};
use fc_base::volume::Change;

/// One atomic step: what was asked, what was answered, and what it cost.
#[derive(Drop)]
pub struct Entry {
    /// Its number, counted from 0 over the history.
    pub number: u64,
    /// Who asked: 0 is `main`, each other name has the next number from when it first comes.
    pub actor: u32,
    /// Under whose turns it was made.
    pub place: Place,
    /// What was asked.
    pub request: Request,
    /// What was answered.
    pub reply: Reply,
    /// The grains that were moved, in order.
    pub moves: List<Move>,
    /// What a command changed, in order.
    pub effects: List<Effect>,
    /// The grain that a failed write of this entry may have left with any bytes.
    pub torn: Option<Torn>,
    /// The faults of all disks that the lane ever had, as the entry begins; 0 where the place isn't a lane.
    pub faults_before: u64,
    /// The same as the entry ends.
    pub faults_after: u64,
    /// The reads and writes that the entry made on disks.
    pub calls: u32,
}

/// What a part of the store logs.
#[derive(Drop)]
pub enum Logged {
    /// An entry of its own.
    Own(Entry),
    /// The part of a command that a lane does.
    Command { number: u64, events: LaneEvents },
}

/// What a part of the store keeps of each step, for good.
#[derive(Drop)]
pub enum Past {
    /// A lane begins with so many disks of each kind, whose counts have these sums.
    Opened {
        flat: u32,
        thin: u32,
        faults: u64,
        calls: u64,
    },
    /// An entry of a lane. The write is there exactly where a write was done.
    Step {
        number: u64,
        write: Option<WritePart>,
        moves: List<Move>,
        torn: Option<Torn>,
        faults: u64,
        calls: u32,
    },
    /// A command: its events in a lane, its changes in the control part.
    Command {
        number: u64,
        events: LaneEvents,
        changes: List<Change>,
    },
}

//! The law of parts: what lanes do to their grains, one by one, is what happens to all grains.
//!
//! A history tells of all grains as of one lane that has every grain (`fc_legal`, `specs/Whole`), so the words on
//! lanes (`fc_rules`, `fc_follow`) speak of both. The part of a lane is what is told at its grains, by their places, and all
//! volumes and background work. The law says that a lane's part begins with nothing but its disks; that a decision
//! that fits all grains fits each part, and leaves in each the part of what it leaves; that an entry of a lane, an access
//! at one of its grains or a worker's turn, that is right in the lane is right by all grains, tells its lane its part of what
//! it leaves and other lanes nothing, and leaves standing what stood; and that an access inside a volume fits the lane of its
//! grain. So it is with what is kept of incremental mappings: a lane keeps of each what is the same at its grains; and with
//! which grains of volumes occupy memory.
//!
//! To read: `specs/Law`, what is said; then `proofs/`: `Numbers` (grains by place and by number, parts of lists), `Sets` (parts
//! of sets of grains), `Views`, `Events`, `Beginning` (what new slots of triggers hold) and `Fitting` (chains and events),
//! `Pictures` (plain volumes and events), `Rows` (what is kept of incremental mappings, and notes), `Grains` (moves and writes at
//! one grain), `Noting` (the notes of events and of entries), `Rooms` (which grains occupy memory), `Told` and `Decisions`
//! (what is told of decisions), `Outcomes` (what an entry did), `Turns` (the work that a worker takes), `Spots` (what an entry
//! may answer), `Accesses` (what a lane's entry tells), `Staying`, `RowsStaying`, `Outside`, `Soundness` and `Standing` (what
//! stood stands), `Marked` (an entry is right with any number, by any actor), `Lawful`.
#![tactic(auto)]

ghost use Rattle.fc_parts.specs.Law.{PartLaw};

/// The law of parts. It does nothing; a caller learns the law.
pub fn part_law()
    ensures { PartLaw }
{}

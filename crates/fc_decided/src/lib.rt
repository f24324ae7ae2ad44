//! The law of decisions: what is decided of a command fits the books, and leaves all as sound as before.
//!
//! The books decide every command (`fc_books`), and what is told after it follows from what was decided (`fc_legal`). The law
//! says that a settling, and every decision on settled books, is lawful: its events fit the chains and the disks, its changes
//! fit the tables, the lane of all grains is told what the decision leaves, and all that stood before it stands after it.
//!
//! To read: `specs/Law`; then `proofs/`. First what all deeds share: `Lists`, `Ordered` and `Unrefused` (plain facts), `Apart`
//! (events, part by part), `Working` (background work), `Firsts` (the first of each chain), `Sparing` and `Keeping` (what events
//! and changes leave of incremental mappings), `Fuller` and `Restarting` (chains where new slots hold restart sets), `Noting` and
//! `Following` (rows), `Frame` (what a deed has to show: deeds are proved on chains where new slots hold nothing, and restart
//! sets and rows are put in there), `Setting`, `Reaching`, `Agreeing` and `Carrying` (tables, accesses and slots). Then the
//! commands: `Resting`, `Making` and `Clearing` (volumes), `Pairing` (mappings), `Grouping` (groups); `Beginning`, `Turning`,
//! `Receiving`, `Copying`, `Turns`, `Triggering`, `Preparing`, `Starting` and `Allowed` (what prepares and starts). `Seen` to
//! `Stops`, `ForceStops`, `Suiting`, `Goings` and `GroupStops` are the stops; `Free`, `Olds`, `Dropping`, `Settles` and `Settled`
//! the settling; `Commands` and `Decided` all together.
#![tactic(auto)]

ghost use Rattle.fc_decided.specs.Law.{DecisionLaw};

/// The law of decisions. It does nothing; a caller learns the law.
pub fn decision_law()
    ensures { DecisionLaw }
{}

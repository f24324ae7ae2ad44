//! When the control part and all lanes stand for what is told, and that each step of a store leaves it so.
//!
//! To read: `specs/Store` (a store as contracts see it, and when it stands for what a history tells), `specs/Phase` and
//! `specs/Settling` (the two phases of a command), `specs/Apart` (an entry that no lane makes), `specs/Leading` (what an entry
//! leads on to), `specs/Logged` (an entry that is logged, and agendas that entries bring on), `specs/Passing` (seconds that
//! pass), `specs/Arming` and `specs/Quiet` (what entries tell of armed faults; disks that never fail unless an entry armed one, and
//! armed faults as the entries tell), `specs/Armed` (what a command leaves of armed faults); then `proofs/`.
#![tactic(auto)]

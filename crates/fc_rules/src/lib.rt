//! What is right in a lane: the definitions that the contracts of lanes and of the store cite. There is no code here.
//!
//! A lane has the grains `g` of every volume with one remainder of `g` by the number of lanes. What it did is a
//! list of records, its past (`fc_entry::entry::Past`). `specs/LaneTold` says what a past tells: the chains
//! of the lane's grains, what plain volumes hold there, how hosts may reach each volume, what background work
//! there is, the disks left for new volumes, and the sums of their counts. `specs/LaneRight` says which answers
//! an entry may have after that, at which cost, and with which moves.
//!
//! In reading order, all in `specs/`: `Spot` (all that matters at one grain), `Steps` (what a write or a fill
//! does, step by step, and where it may stop), `GrainAnswers` (which answers it may have), `LaneTold`,
//! `LaneFits` (which calls and events fit a lane), `LaneTurn` (which grain a worker's turn takes), `LaneRight`, and `Shows` (how the physical grains of disks stand
//! for what plain volumes hold).
#![tactic(auto)]

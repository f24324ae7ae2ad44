//! Changed grains: at which grains an incremental mapping that starts again has nothing to copy. There is no code here.
//!
//! Once a mapping copied its source to its target, both show the same. Where neither is changed after that, by a write, by
//! another copy or by a copy that ended incomplete, they still do; there a copy that starts again in either direction
//! needn't copy. These grains are the mapping's restart set.
//!
//! In reading order, all in `specs/`: `Notes` (what is noted), `Changed` (the restart set, over all that was ever noted),
//! `Row` (what is kept of it for each mapping, and what a note does to it). `fc_diff` keeps the rows.
#![tactic(auto)]

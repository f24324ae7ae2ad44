//! Tests of whole sessions over sources, sinks and disks in memory, which say their bytes and fail where they are asked to.
//!
//! That each status says what it says is proved; that memory suffices, that a session comes to its end as
//! expected, and that the disks which come back hold what was written, is shown here.
//!
//! In reading order: `sessions` (a session is run), `tests` (sessions that end as they should, and some whose calls fail), `failing`
//! (each call fails once), `bytes` (what no text has), `disks` (the very disks come back), `actors` (blocks whose order is forced),
//! `memory` (sessions in which one allocation is refused).
#![tactic(auto)]

#[cfg(test)]
mod actors;
#[cfg(test)]
mod bytes;
#[cfg(test)]
mod disks;
#[cfg(test)]
mod failing;
#[cfg(test)]
mod memory;
#[cfg(test)]
mod sessions;
#[cfg(test)]
mod tests;

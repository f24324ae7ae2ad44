//! What is drawn of a history's chains.
//!
//! Each value here has the definitions' word for contract (`specs/`): `chains` says which slots stand in which chain,
//! `slot` what a slot is and holds, `reason` why a read gives its bytes (who holds the grain, and by which writes its
//! blocks came), `sources` from whom each move copies, `room` how many grains a volume takes, `arrivals` by which entry
//! a slot got a grain, and `totals` how many moves each pair of volumes had. `drawing` puts together what is drawn of
//! one entry, and `canvas` is the trait of whoever lays it out: as text or SVG `fc_drawing_text`.
//!
//! To read: `specs/`; then `places` (places that pass a test), `chains`, `slot`, `sources`, `reason`, `room`,
//! `arrivals`, `totals`, `drawing`, `canvas`.
#![tactic(auto)]

pub mod arrivals;
pub mod canvas;
pub mod chains;
pub mod drawing;
mod places;
pub mod reason;
pub mod room;
pub mod slot;
pub mod sources;
pub mod totals;

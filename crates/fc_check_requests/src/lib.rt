//! What a line, an actor or a worker has still to ask, request by request: for a judge of printed histories that has the bytes of the
//! session too.
//!
//! `Requests` is a list of requests that are left, kept piece by piece: an access of many blocks is one piece, however many grains it
//! has, and so are the turns of a worker. It is seen as the plain list. `Script` is what an actor of a block has still to ask, `Work`
//! the copies or cleanings of a mapping with the credit that they save up.
//!
//! Behind its last request a line may ask more: an `advance` lets seconds pass, and a preset asks for other lines by what the one before was
//! answered. That is a `Behind` (`fc_base`), which `asking` begins; the lines of a preset are made by `fc_preset_lines`.
//!
//! What was told is asked of whoever keeps it, through the trait `Told`: tables, flags of background work, how many lanes there are,
//! and the next grain of background work. There is no chain, bitmap, lane or store of what makes entries.
//!
//! In reading order: `work` (background work of mappings), `told` (what is asked of what was told), `span` and `turns` (what accesses
//! and workers ask), `requests` (requests that are left), `asking` (what a line asks), `scripts` (actors of a block), `copies`.
#![tactic(auto)]

pub mod asking;
pub mod copies;
pub mod requests;
pub mod scripts;
pub mod span;
pub mod told;
pub mod turns;
pub mod work;

//! The lines that are asked in place of a preset.
//!
//! `lines` makes each of them of its parts: the volume, the mapping and its start, and what undoes
//! the first two. `coming` says what is asked behind a reply, and what behind that. Both say in
//! code what `fc_legal/specs/Presets.antt` says.
#![tactic(auto)]

mod coming;
mod lines;

pub use coming::{Coming, asked_behind};
pub use lines::{mapping_line, start_line, unmake_line, unmap_line, volume_line};

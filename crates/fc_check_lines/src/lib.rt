//! What a session may still bring, followed entry by entry: for a judge of printed histories that has the bytes
//! of the session too.
//!
//! `Lines` has the bytes of a session that are still unread, what is left of the line or the block that was
//! begun, and the names of the session's actors so far. It is seen as a `Standing`: these names, and the agenda
//! (`fc_legal`, `specs/Agenda`) that is left. It always waits for an entry, or is over: what goes on without
//! one has gone on. `Lines::asks` answers exactly whether an actor may ask something next; `Lines::follow` goes
//! on behind an entry, by what is told after it; and `Lines::is_over` answers whether nothing is left. By the
//! law of lines, that is whether the entries so far are the first of a run of the session, and whether they are
//! a whole run.
//!
//! What was told is asked of whoever keeps it (`fc_check_requests`, `told`); requests, scripts and background work are kept there too.
//! Behind its last request a line may ask more by what that was answered, as a preset does (`fc_preset_lines`).
//!
//! In reading order: `segment` (the next line or block of a session's bytes), `passing` (seconds that pass), `lines`; and `laws`.
#![tactic(auto)]

pub mod laws;
pub mod lines;
pub mod passing;
pub mod segment;

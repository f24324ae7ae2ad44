//! Verdicts on printed traces, and on the sessions behind them.
//!
//! A judge is given the bytes of a trace (docs/TRACE.md), behind which a line `session` and the bytes of a session may stand. It says
//! whether the entries in it are those of a legal history of a store over the disks of its first line, and, with a session, a whole run
//! of its lines and blocks: yes, of all; no, from this entry on, or with a line that remains; or that the bytes are no such input, and
//! where they stop being one. `check` takes the bytes from a source, and `judge` is given them. The chains, bitmaps, lanes and the store
//! of what made the trace aren't asked: entries are followed by `fc_check_follow`, and through a session by `fc_check_answers`.
//!
//! In reading order: `verdict`, what is answered; `input`, all bytes of a source; `judge`, entry by entry; `session`, the entries once
//! more, with the session; `check`; `laws`, that one verdict is right.
#![tactic(auto)]

pub mod check;
pub mod input;
pub mod judge;
pub mod laws;
pub mod session;
pub mod verdict;

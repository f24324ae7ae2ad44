//! By which write each byte of plain volumes came.
//!
//! An `Origins` is seen as a picture of `fc_entry`, `specs/Picture`: what plain volumes hold after a history in which each
//! write writes its own number (`specs/Origins`). `follow` goes on behind an entry, and `part` answers by which writes
//! blocks came. `origin_law` is the law that this explains the bytes: each is that of the write by which it came.
//!
//! Plain volumes are kept block by block by `fc_check_picture`, with an `Origin` for each block. There are no chains here:
//! bytes keep their origin wherever a move puts them.
//!
//! To read: `specs/Origins` and `specs/Explains`; then `origin` (of one block), `origins`, which has the calls, and `law`.
#![tactic(auto)]

pub mod law;
pub mod origin;
mod origins;

pub use origins::Origins;

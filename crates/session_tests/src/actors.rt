//! Actors of blocks whose order is forced: some are held at the gate until others have come to a point.
//!
//! A gate sees each actor twice at each request: inside its turn, and when it was answered. With a gate that holds one actor until
//! another one comes, a block shows what works beside what, and what waits for what.
//!
//! In reading order: `holding` (the gate), `running` (a session is run with it), `tests`.

mod holding;
mod running;
mod tests;

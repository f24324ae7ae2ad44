//! Where the bytes of a session come from, and where those of its history go.
//!
//! A `Source` gives bytes piece by piece, and none only at its end; a `Sink` adds what is put to what it holds. Any call
//! may fail, and only where the count of faults rose or stands at its end: a failed `take` leaves what the source had
//! left, and a failed `put` adds a front of its part. What was put waits in the sink until a `flush` sends it on: a done
//! one sends on all, a failed one and a `put` nothing. Contracts speak of what is left, held or sent on and of the calls
//! that fail where a source or sink tells these.
//!
//! `MemSource` and `MemSink` tell all, and fail at the calls that they are told. `StdSource` and `StdSink` stand over a
//! reader and a writer of std, with buffers of 64 KiB, and tell nothing; what their calls do is promised in terms of
//! what the reader or writer itself tells.
//!
//! Files: `source` and `sink` (the traits; their words are in `specs/`), `mem_source`, `mem_sink`, `std_source`,
//! `std_sink`; inside `failing`.
#![tactic(auto)]

mod failing;
pub mod mem_sink;
pub mod mem_source;
pub mod sink;
pub mod source;
pub mod std_sink;
pub mod std_source;

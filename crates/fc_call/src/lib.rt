//! A call of the program, from outside: how it ended, and what its source, its sink, its disks and its history were before and are
//! after it (`specs/Call`).
//!
//! The words in which every call's promise is said, by whoever runs a session (`fc_top`) or checks a trace (`fc_verdict`). `status` is
//! how a call ends; each one has an exit status of its own (`specs/Codes`), and each way for a session to end has its status.
#![tactic(auto)]

pub mod status;

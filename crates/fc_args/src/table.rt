//! The table of the program's commands and options: each has a line of help, and those to come say whether they are built.
//!
//! A command or an option that isn't built is known to the program, isn't asked for by any words, and stands in no help.
//! To build one is to turn its line here.

/// The program.
pub const PROGRAM_HELP: &str = "FlashCopy over simulated volumes";

/// `run`.
pub const RUN_HELP: &str =
    "Read a session from standard input, and write its history to standard output";

/// `run --grain`.
pub const GRAIN_HELP: &str = "The size of a grain in KiB (256 unless told)";

/// `run --trace`.
pub const TRACE_HELP: &str = "Write the history as a trace, which a checker can read";
/// Whether `run --trace` is built.
pub const TRACE_IS_BUILT: bool = true;

/// `run --cache`.
pub const CACHE_HELP: &str =
    "Put a write cache of 1 to 1024 parts before the volumes (not with --trace)";
/// Whether `run --cache` is built.
pub const CACHE_IS_BUILT: bool = false;

/// `drill`.
pub const DRILL_HELP: &str =
    "Run the generated session of a number below 2^64, and write a summary of its history";

/// The number of a `drill`.
pub const DRILL_NUMBER_HELP: &str = "The number of the session, in 1 to 20 digits";

/// `check`.
pub const CHECK_HELP: &str =
    "Read a trace from standard input, and say whether each of its entries is right";
/// Whether `check` is built.
pub const CHECK_IS_BUILT: bool = true;

/// `stop`.
pub const STOP_HELP: &str =
    "Run a session whose metadata disk fails at a call, and write what is recovered";
/// The call of a `stop`.
pub const STOP_CALL_HELP: &str =
    "The write or sync that fails, and every later one, from 1 to 4294967295";
/// Whether `stop` is built.
pub const STOP_IS_BUILT: bool = true;

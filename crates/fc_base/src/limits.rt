//! The limits of a run (docs/RULES.md, "Limits").

/// Bytes in a block.
pub const BLOCK_BYTES: u32 = 512;

/// Lanes of the store: grain `g` of every volume belongs to lane `g mod LANES`.
pub const LANES: u32 = 4;

/// Volumes at one time.
pub const MAX_VOLUMES: u32 = 512;

/// Mappings at one time.
pub const MAX_MAPPINGS: u32 = 512;

/// Mappings with one source.
pub const MAX_TARGETS: u32 = 256;

/// Consistency groups at one time.
pub const MAX_GROUPS: u32 = 64;

/// Mappings in one group.
pub const MAX_GROUP_MAPPINGS: u32 = 64;

/// Grains of all volumes together.
pub const MAX_GRAINS: u32 = 8192;

/// Blocks in one read or write line.
pub const MAX_BLOCKS: u32 = 8192;

/// Bytes of a line before its end.
pub const MAX_LINE_BYTES: usize = 4096;

/// Bytes of a session.
pub const MAX_INPUT_BYTES: u64 = 67_108_864;

/// Entries of a history.
pub const MAX_ENTRIES: usize = 262_144;

/// Actors of a block beside `main`.
pub const MAX_ACTORS: u32 = 16;

/// Turns of a copier or cleaner.
pub const MAX_TURNS: u32 = 10_000;

/// Seconds of one `advance`.
pub const MAX_SECONDS: u32 = 3_600;

/// The greatest copy rate or clean rate.
pub const MAX_RATE: u32 = 150;

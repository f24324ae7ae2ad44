//! Grain sizes.

ghost use Rattle.std.specs.Prelude.{◌≡◌};
ghost use Rattle.fc_base.specs.Grain.{grain_kib, grain_bytes, grain_blocks};

/// The size of a grain: one for a run.
#[derive(Clone, Copy, PartialEq, Eq)]
pub enum GrainSize {
    /// 64 KiB, 128 blocks.
    K64,
    /// 256 KiB, 512 blocks.
    K256,
}

impl GrainSize {
    /// The size in KiB: 64 or 256.
    pub fn kib(self) -> u32
        ensures { result ≡ grain_kib self }
    {
        match self {
            GrainSize::K64 => 64,
            GrainSize::K256 => 256,
        }
    }

    /// The size in bytes: 65,536 or 262,144.
    pub fn bytes(self) -> u32
        ensures { result ≡ grain_bytes self }
    {
        match self {
            GrainSize::K64 => 65_536,
            GrainSize::K256 => 262_144,
        }
    }

    /// The size in blocks: 128 or 512.
    pub fn blocks(self) -> u32
        ensures { result ≡ grain_blocks self }
    {
        match self {
            GrainSize::K64 => 128,
            GrainSize::K256 => 512,
        }
    }
}

//! How presets end, counted.

/// How a preset ends.
#[derive(Clone, Copy)]
pub enum End {
    /// All of its lines were done.
    Whole,
    /// Its source names no volume.
    NoSource,
    /// Its volume wasn't made.
    NoVolume,
    /// Its mapping wasn't made.
    NoMapping,
    /// Its start wasn't done.
    NoStart,
}

/// How many presets ended in each way.
#[derive(Clone, Copy)]
pub struct Ends {
    /// Those that are whole.
    pub whole: u32,
    /// Those whose source names no volume.
    pub no_source: u32,
    /// Those whose volume wasn't made.
    pub no_volume: u32,
    /// Those whose mapping wasn't made.
    pub no_mapping: u32,
    /// Those whose start wasn't done.
    pub no_start: u32,
}

impl Ends {
    /// No presets.
    pub fn none() -> Ends {
        Ends {
            whole: 0,
            no_source: 0,
            no_volume: 0,
            no_mapping: 0,
            no_start: 0,
        }
    }

    /// One preset more, which ended so.
    pub fn add(&mut self, end: End) {
        let count = match end {
            End::Whole => &mut self.whole,
            End::NoSource => &mut self.no_source,
            End::NoVolume => &mut self.no_volume,
            End::NoMapping => &mut self.no_mapping,
            End::NoStart => &mut self.no_start,
        };
        *count = count.saturating_add(1);
    }
}

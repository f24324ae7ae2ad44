//! Numbers drawn from a number.

ghost use Rattle.std.specs.Prelude.{◌<◌};

/// Draws by a number.
#[derive(Clone, Copy)]
pub struct Draws {
    state: u64,
}

impl Draws {
    /// Draws that begin with a number.
    pub fn of(seed: u64) -> Draws {
        Draws { state: seed }
    }

    /// Draws one of so many.
    pub fn below(&mut self, count: u32) -> u32
        requires { 0 < count }
        ensures { result < count }
    {
        self.state = self
            .state
            .wrapping_mul(6_364_136_223_846_793_005)
            .wrapping_add(1_442_695_040_888_963_407);
        ((self.state >> 33) % u64::from(count)) as u32
    }
}

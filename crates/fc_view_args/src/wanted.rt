//! What the words of the viewer ask for.

/// What the words of the viewer ask for.
#[derive(Clone, Copy)]
pub struct Wanted {
    /// The number of the one entry that is drawn: `--at`. Without it all are.
    pub at: Option<u64>,
    /// Whether it is drawn as SVG, and not as text: `--svg`.
    pub svg: bool,
}

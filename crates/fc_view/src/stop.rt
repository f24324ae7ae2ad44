//! Why a trace was viewed in part, or not at all.

/// Why a trace was viewed in part, or not at all.
#[derive(Clone, Copy, Debug, PartialEq, Eq)]
pub enum ViewStop {
    /// A call of the source failed. Nothing was drawn.
    ReadFault,
    /// The canvas refused a part of a drawing, since where it goes did. A front of the drawings was laid out.
    WriteFault,
    /// Memory was wanted and not had.
    NoMemory,
    /// A byte other than `s` stands behind entry 262,144. The entries before it are drawn.
    LogFull,
    /// There are more than 67,108,864 bytes. Nothing was drawn.
    TooLong,
}

//! What a yard keeps, and what its parts say of the whole.

ghost use Rattle.std.specs.Prelude.{ℕ};

/// A part of something that several actors work on, each with the parts that it has taken. `W` is the whole that the parts
/// together stand for: it exists in proofs alone, and no value of it is made. `E` is an entry, which leads from one whole
/// to the next.
///
/// Whoever keeps parts in a yard says here what they have to do with the whole. The yard promises that each part always
/// has its share of one whole, to which the entries have led in the order of their numbers.
pub trait Part<W, E>: Send + Drop {
    /// The part has its share of the whole. Of the part as the yard was opened with it, the whole, the part's place in
    /// the yard, and the part.
    ghost fits: { Self → W → ℕ → Self → Type 0 };

    /// What holds of every whole on the way. Of the whole that the yard was opened on, and the whole.
    ghost sound: { W → W → Type 0 };

    /// How many entries have led to the whole.
    ghost count: { W → ℕ };

    /// The entry with this number leads from the first whole to the second.
    ghost steps: { W → ℕ → E → W → Type 0 };
}

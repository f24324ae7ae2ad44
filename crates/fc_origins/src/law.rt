//! The law of origins.

ghost use Rattle.fc_origins.specs.Explains.{OriginLaw};

/// The law of origins: each byte that plain volumes hold is that of the write by which it came, and 0 where no write made it. It does
/// nothing; a caller learns the law.
pub fn origin_law()
    ensures { OriginLaw }
{}

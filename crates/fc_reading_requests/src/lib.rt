//! What was asked, read back from the text of an entry.
//!
//! It stands between the actor's name and the arrow. `read_request` answers what was asked and the length, the
//! arrow with it, or the place of the first byte with which no such text goes on. Which request it was, the
//! reply decides (`Asked::request`): a host's access and a refused line of one have the same text, and a line
//! with a fault in its words has none.
//!
//! In reading order: `asked`, what a text tells of a request; `parts`, names, objects and bytes; then what
//! stands behind the first words: `accesses`, `volumes`, `mappings`, `runs`, `reports`, `presets`; `requests`,
//! all of them; and `answered`.
#![tactic(auto)]

pub mod accesses;
pub mod answered;
pub mod asked;
pub mod mappings;
pub mod parts;
pub mod presets;
pub mod reports;
pub mod requests;
pub mod runs;
pub mod volumes;

ghost use Rattle.fc_reading_requests.specs.Back.{RequestsLaw};

/// The law of requests: what their texts tell. It does nothing; a caller learns the law.
pub fn requests_law()
    ensures { RequestsLaw }
{}

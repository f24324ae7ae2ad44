//! What is drawn of one entry, and how a view ends.

use crate::arrivals::Arrivals;
use crate::reason::Reason;
use crate::sources::Source;
use crate::totals::Totals;
use fc_entry::entry::Entry;
use fc_entry::history::History;
use fc_model::PlainSheet;
use fc_registry::Registry;

/// What is drawn of one entry.
#[derive(Clone, Copy)]
pub struct Drawing<'a> {
    /// The entry.
    pub entry: &'a Entry,
    /// The names of actors, and the entries up to this one, by which writes are named.
    pub history: &'a History,
    /// The volumes and mappings after it, with their names and states.
    pub registry: &'a Registry,
    /// The chains of copies after it.
    pub sheet: &'a PlainSheet,
    /// From whom each of its moves copied, in their order.
    pub sources: &'a [Option<Source>],
    /// Why it gave its bytes, or found their grain lost, where it is a read that did.
    pub reason: Option<Reason<'a>>,
    /// How grains came to slots, up to it.
    pub arrivals: &'a Arrivals,
    /// In how many ways all may have been told so far, 1 or more; the chains are those of the first.
    pub ways: usize,
    /// Whether the chains are drawn: they may be others than before, or this is the one entry that is drawn.
    pub shows_chains: bool,
}

/// What is put at the end of a trace whose entries are all right.
#[derive(Clone, Copy)]
pub struct Sums<'a> {
    /// The volumes after the last entry.
    pub registry: &'a Registry,
    /// The chains of copies after it.
    pub sheet: &'a PlainSheet,
    /// The moves of all entries, by pair of volumes.
    pub totals: &'a Totals,
}

/// How a view of a trace ends.
#[derive(Clone, Copy, Debug, PartialEq, Eq)]
pub enum Seen {
    /// All its entries are right, so many.
    Right(u64),
    /// The entry with this number is the first that isn't right after those before it. It and those behind it aren't drawn.
    Wrong(u64),
    /// No trace goes on with the byte at this place, or the bytes end there too early. The entries before it are drawn.
    Malformed(u64),
}

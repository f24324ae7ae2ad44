//! Entries that no lane makes.

ghost use Rattle.std.specs.Prelude.{◌≡◌, [], None};
ghost use Rattle.fc_stands.specs.Apart.{entry_apart};

use fc_base::fault::Refusal;
use fc_base::list::List;
use fc_base::request::{Effect, Place, Reply, Request};
use fc_entry::entry::Entry;
use std::alloc::Global;

/// An entry by an actor that speaks of no disk. Its number is 0 until it is kept.
pub fn entry_apart(
    alloc: Global,
    actor: u32,
    place: Place,
    request: Request,
    reply: Reply,
    effects: List<Effect>,
) -> Entry
    ensures { result ≡ entry_apart 0 actor place request reply effects }
{
    Entry {
        number: 0,
        actor,
        place,
        request,
        reply,
        moves: List::new(alloc),
        effects,
        torn: None,
        faults_before: 0,
        faults_after: 0,
        calls: 0,
    }
}

/// The entry of an access or a preset that is refused, or of a line with a fault in its words, by an actor: it settles nothing and
/// does nothing. Its number is 0 until it is kept. Takes no memory.
pub fn refused_entry(alloc: Global, actor: u32, request: Request, refusal: Refusal) -> Entry
    ensures { result ≡ entry_apart 0 actor Place.Control request (Reply.Refused refusal) [] }
{
    let reply = Reply::Refused(refusal);
    let effects = List::new(alloc);
    entry_apart(alloc, actor, Place::Control, request, reply, effects)
}

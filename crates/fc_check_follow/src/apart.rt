//! Entries that no lane makes.

ghost use Rattle.std.specs.Prelude.{◌≡◌, ◌↔◌, [], IsTrue};
ghost use Rattle.fc_base.specs.declared.request.Reply.TheVariants.{NoMemory as WantsMemory, Refused};
ghost use Rattle.fc_legal.specs.Steps.{IsApart};
ghost use Rattle.fc_check_follow.specs.Following.{IsOfCommand, SaysRefused};

use fc_base::fault::Refusal;
use fc_base::request::{Place, Reply};
use fc_check_same::same::Same;
use fc_entry::entry::Entry;

/// Whether nothing was moved, no disk was called, and none is spoken of.
fn is_apart(entry: &Entry) -> bool
    ensures { IsTrue result ↔ IsApart entry.now }
{
    entry.moves.as_slice().is_empty()
        && entry.torn.is_none()
        && entry.calls == 0
        && entry.faults_before == 0
        && entry.faults_after == 0
}

/// Whether an entry is of a command, whatever it answers.
pub(crate) fn is_of_command(entry: &Entry) -> bool
    ensures { IsTrue result ↔ IsOfCommand entry.now }
{
    entry.place == Place::Every && is_apart(entry)
}

/// Whether an entry tells no effect.
pub(crate) fn has_no_effects(entry: &Entry) -> bool
    ensures { IsTrue result ↔ (entry.now.effects ≡ []) }
{
    entry.effects.as_slice().is_empty()
}

/// Whether a reply says that this was refused.
fn is_refusal(reply: &Reply, refusal: &Refusal) -> bool
    ensures { IsTrue result ↔ (reply.now ≡ Refused refusal.now) }
{
    match reply {
        Reply::Refused(own) => own.is_same(refusal),
        _ => false,
    }
}

/// Whether an entry says that it was refused so, and did nothing.
pub(crate) fn says_refused(entry: &Entry, refusal: &Refusal) -> bool
    ensures { IsTrue result ↔ SaysRefused refusal.now entry.now }
{
    entry.place == Place::Control
        && is_apart(entry)
        && is_refusal(&entry.reply, refusal)
        && has_no_effects(entry)
}

/// Whether a reply says that memory was wanted and not had.
pub(crate) fn wants_memory(reply: &Reply) -> bool
    ensures { IsTrue result ↔ (reply.now ≡ WantsMemory) }
{
    match reply {
        Reply::NoMemory => true,
        _ => false,
    }
}

//! Refused accesses and presets, and faulty lines.

ghost use Rattle.std.specs.Prelude.{◌≡◌, ◌∷◌, ◌++◌, [], ◌<◌, OnOk};
ghost use Rattle.fc_books.specs.Refused.{access_refused, preset_refused};
ghost use Rattle.fc_legal.specs.Steps.{MustBeRefused, IsRefused, one_more};
ghost use Rattle.fc_check_follow.specs.Following.{Came, IsOpen};

use crate::apart::says_refused;
use fc_base::fault::Refusal;
use fc_base::name::Ref;
use fc_base::outcome::NoMemory;
use fc_check_lane::push_item;
use fc_check_record::Record;
use fc_entry::entry::Entry;

/// Keeps a way as it is.
pub(crate) fn keep(way: Record, after: &mut Vec<Record>) -> Result<(), NoMemory>
    ensures { OnOk result (after.new.items ≡ after.old.items ++ way ∷ []) }
{
    push_item(after, way)
}

/// Keeps a way that an entry of no lane has left: one more entry is there.
pub(crate) fn keep_one_more(mut way: Record, after: &mut Vec<Record>) -> Result<(), NoMemory>
    requires { way.whole.entries < 262144 }
    ensures { OnOk result (after.new.items ≡ after.old.items ++ (record { grain = way.grain; whole = one_more way.whole }) ∷ []) }
{
    way.one_more();
    keep(way, after)
}

/// Goes on behind an entry by which a request was refused so: there is a way where the entry says it.
pub(crate) fn follow_refusal(
    way: Record,
    refusal: &Refusal,
    entry: &Entry,
    after: &mut Vec<Record>,
) -> Result<(), NoMemory>
    requires { IsOpen way.whole }
    ensures { OnOk result (Came way.grain (IsRefused refusal.now way.whole entry.now) after.old.items after.new.items) }
{
    if says_refused(entry, refusal) {
        keep_one_more(way, after)
    } else {
        Ok(())
    }
}

/// Goes on behind an entry that must be refused so: there is no way where nothing is refused.
fn follow_must(
    way: Record,
    refusal: Option<Refusal>,
    entry: &Entry,
    after: &mut Vec<Record>,
) -> Result<(), NoMemory>
    requires { IsOpen way.whole }
    ensures { OnOk result (Came way.grain (MustBeRefused refusal way.whole entry.now)
        after.old.items after.new.items) }
{
    match refusal {
        Some(refusal) => follow_refusal(way, &refusal, entry, after),
        None => Ok(()),
    }
}

/// Goes on behind an entry of an access that is a line by itself: there is a way where it is refused.
pub(crate) fn follow_access(
    way: Record,
    volume: &Ref,
    block: u32,
    count: u32,
    entry: &Entry,
    after: &mut Vec<Record>,
) -> Result<(), NoMemory>
    requires { IsOpen way.whole }
    ensures { OnOk result (Came way.grain (MustBeRefused (access_refused way.grain way.whole.books volume.now block count) way.whole entry.now) after.old.items after.new.items) }
{
    let refusal = way.refused_access(volume, block, count);
    follow_must(way, refusal, entry, after)
}

/// Goes on behind an entry of a preset: there is a way where it is refused. Where it isn't, other lines are asked in its place.
pub(crate) fn follow_preset(
    way: Record,
    source: &Ref,
    entry: &Entry,
    after: &mut Vec<Record>,
) -> Result<(), NoMemory>
    requires { IsOpen way.whole }
    ensures { OnOk result (Came way.grain
        (MustBeRefused (preset_refused way.whole.books source.now) way.whole entry.now)
        after.old.items after.new.items) }
{
    let refusal = way.refused_preset(source);
    follow_must(way, refusal, entry, after)
}

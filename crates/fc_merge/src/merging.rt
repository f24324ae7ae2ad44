//! Merging: at each step the list whose first entry has the next number gives it.

ghost use Rattle.std.specs.Prelude.{◌≡◌, ℕ, [], ◌++◌, List, All, length, position, IfSome, OnOk, OnErr, false};
ghost use Rattle.fc_entry.specs.declared.entry.Entry.{Entry};
ghost use Rattle.fc_merge.specs.Merging.{AreOwn, AreNumbered, IsMerged, Own, all_of};
ghost use Rattle.fc_merge.specs.Taking.{Takes, is_next};

use crate::own::OwnEntries;
use fc_base::outcome::NoMemory;
use fc_entry::entry::Entry;
use fc_entry::history::History;

/// The place of the list that begins with the entry of this number, if one does.
fn place_of_next(lists: &[OwnEntries], number: u64) -> Option<usize>
    ensures { result ≡ position (λ (own : Own). is_next number own.entries) lists.now }
{
    lists.iter().position(|list| list.is_next(number))
}

/// Takes the entry with this number from the list that it is first in, if it is first in one.
fn take_next(lists: &mut [OwnEntries], number: u64) -> Option<Entry>
    ensures taken { IfSome result (λ entry. Takes number lists.old entry lists.new) }
    ensures none { result ≡ None → All (λ (own : Own). is_next number own.entries ≡ false) lists.old }
    ensures stay { result ≡ None → lists.new ≡ lists.old }
{
    let place = place_of_next(lists, number)?;
    lists[place].take_first()
}

/// Puts the entries of several actors at the history's end, by number: their numbers go on where the history ends, and
/// each stands once. The lists are empty then. Refused for want of memory, the first of them were put there, and the next
/// is lost.
pub fn merge(lists: &mut [OwnEntries], history: &mut History) -> Result<(), NoMemory>
    requires own { AreOwn lists.old }
    requires numbered { (count : ℕ) × AreNumbered (length history.old.entries) count lists.old }
    ensures ok { OnOk result
        ((merged : List Entry) × IsMerged (length history.old.entries) (length (all_of lists.old)) lists.old merged
        × (history.new ≡ record history.old { entries = history.old.entries ++ merged })) }
    ensures taken { OnOk result (all_of lists.new ≡ []) }
    ensures err { OnErr result
        ((merged front rest : List Entry) × IsMerged (length history.old.entries) (length (all_of lists.old)) lists.old merged
        × (merged ≡ front ++ rest)
        × (history.new ≡ record history.old { entries = history.old.entries ++ front })) }
{
    while let Some(entry) = take_next(lists, history.len() as u64) {
        match history.push(entry) {
            Ok(()) => {}
            Err(_) => return Err(NoMemory),
        }
    }
    Ok(())
}

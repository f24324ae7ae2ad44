//! Why mappings aren't prepared or started.

ghost use Rattle.std.specs.Prelude.{◌≡◌, ◌∷◌, ◌&&◌, ◌==◌, true, false, find, option_map, option_copied};
ghost use Rattle.fc_base.specs.States.{next_state};
ghost use Rattle.fc_books.specs.Accesses.{is_online};
ghost use Rattle.fc_books.specs.Refused.{refused_by};
ghost use Rattle.fc_books.specs.RefusedStarts.{in_group, by_state, not_ready, is_rival};
ghost use Rattle.fc_desk.specs.Control.{books_of};
ghost use Rattle.fc_entry.specs.Refused.{first_of};

use fc_base::fault::Refusal;
use fc_base::sheet::Sheet;
use fc_base::state::{Access, MapEvent, MapState};
use fc_base::volume::Mapping;
use fc_desk::{Control, is_active, is_used};
use fc_group::access_in;
use fc_states::next;

/// Why a single mapping isn't prepared or started, if it is refused: for its group, its state, its source, its
/// target.
pub fn start_refusal<S: Sheet>(
    control: &Control,
    sheet: &S,
    mapping: &Mapping,
    event: MapEvent,
    restore: bool,
) -> Option<Refusal>
    ensures { result ≡ first_of (in_group mapping.now ∷ by_state event mapping.now ∷ not_ready (books_of control.now (S.meaning sheet.now)) restore mapping.now) }
{
    match group_refusal(mapping) {
        Some(refusal) => Some(refusal),
        None => match state_refusal(mapping.state, event) {
            Some(refusal) => Some(refusal),
            None => ready_refusal(control, sheet, mapping, restore),
        },
    }
}

/// Why a mapping can't begin, if it can't: SourceNotReady, TargetActive, or TargetIsSource without `-restore`.
pub fn ready_refusal<S: Sheet>(
    control: &Control,
    sheet: &S,
    mapping: &Mapping,
    restore: bool,
) -> Option<Refusal>
    ensures { result ≡ first_of (not_ready (books_of control.now (S.meaning sheet.now)) restore mapping.now) }
{
    let mappings = control.registry().all_mappings();
    if !is_online(access_in(mappings, mapping.source)) {
        return Some(Refusal::SourceNotReady(mapping.source));
    }
    match target_active(mappings, mapping) {
        Some(refusal) => Some(refusal),
        None => {
            if !restore && is_used(sheet, mapping.target) {
                Some(Refusal::TargetIsSource(mapping.target))
            } else {
                None
            }
        }
    }
}

/// InGroup for a mapping in a group.
fn group_refusal(mapping: &Mapping) -> Option<Refusal>
    ensures { result ≡ in_group mapping.now }
{
    match mapping.group {
        Some(group) => Some(Refusal::InGroup(group)),
        None => None,
    }
}

/// What the state table refuses.
pub fn state_refusal(state: MapState, event: MapEvent) -> Option<Refusal>
    ensures { result ≡ refused_by (next_state state event true false) }
{
    match next(state, event, true, false) {
        Ok(_) => None,
        Err(refusal) => Some(refusal),
    }
}

/// TargetActive by another active mapping with the target.
fn target_active(mappings: &[Mapping], mapping: &Mapping) -> Option<Refusal>
    ensures { result ≡ option_map (λ (other : Mapping). Refusal.TargetActive other.id) (find (is_rival mapping.now) mappings.now) }
{
    match find_rival(mappings, mapping) {
        Some(other) => Some(Refusal::TargetActive(other.id)),
        None => None,
    }
}

/// The first other active mapping with the target.
fn find_rival<'a>(mappings: &'a [Mapping], mapping: &Mapping) -> Option<&'a Mapping>
    ensures { option_copied result ≡ find (is_rival mapping.now) mappings.now }
{
    mappings.iter().find(|other| is_rival(other, mapping))
}

/// Whether the other mapping is active and has the target.
fn is_rival(other: &Mapping, mapping: &Mapping) -> bool
    ensures { result ≡ is_rival mapping.now other.now }
{
    other.target.0 == mapping.target.0 && (other.id.0 != mapping.id.0 && is_active(other.state))
}

/// Whether a volume that is reached so is online.
fn is_online(access: Access) -> bool
    ensures { result ≡ is_online access }
{
    matches!(access, Access::Online)
}

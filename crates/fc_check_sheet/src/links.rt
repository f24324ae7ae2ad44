//! The edges of the restore graph, as a list.

ghost use Rattle.std.specs.Prelude.{ℕ, ◌↔◌, ◌++◌, ◌∷◌, [], ◌≡◌, IfOk, OnOk, IsTrue};
ghost use Rattle.fc_base.specs.Sheet.{shape_of};
ghost use Rattle.fc_check_sheet.specs.Links.{IsEdgeAt, AddsLinks, AreEdges};

use fc_base::outcome::NoMemory;
use fc_model::PlainSheet;
use std::alloc::Global;

/// An edge of the restore graph from one volume to another.
#[derive(Clone, Copy)]
pub(crate) struct Link {
    pub(crate) from: u32,
    pub(crate) to: u32,
}

/// Whether the slot at the one place is old and stands before the live one of another volume at the other, in
/// one chain.
fn is_edge(sheet: &PlainSheet, old: usize, live: usize) -> bool
    ensures { IsTrue result ↔ IsEdgeAt sheet.now.slots old live }
{
    old < live
        && !sheet.is_live(old)
        && sheet.is_live(live)
        && sheet.chain(old).0 == sheet.chain(live).0
        && sheet.volume(old).0 != sheet.volume(live).0
}

/// Puts a link at the end.
fn push(links: &mut Vec<Link>, link: Link) -> Result<(), NoMemory>
    ensures { OnOk result (links.new.items ≡ links.old.items ++ link ∷ []) }
{
    match links.push(link) {
        Ok(()) => Ok(()),
        Err(_) => Err(NoMemory),
    }
}

/// Adds the edges that the slot at a place makes with those behind it.
fn add_links(sheet: &PlainSheet, old: usize, links: &mut Vec<Link>) -> Result<(), NoMemory>
    ensures { OnOk result (AddsLinks sheet.now.slots old links.old.items links.new.items) }
{
    for live in 0..sheet.len() {
        if is_edge(sheet, old, live) {
            let link = Link {
                from: sheet.volume(old).0,
                to: sheet.volume(live).0,
            };
            push(links, link)?;
        }
    }
    Ok(())
}

/// The edges of the restore graph; one that several slots make may come several times.
pub(crate) fn links_of(alloc: Global, sheet: &PlainSheet) -> Result<Vec<Link>, NoMemory>
    ensures { IfOk result (λ links. AreEdges (shape_of sheet.now.slots) links.items) }
{
    let mut links = Vec::new(alloc);
    for old in 0..sheet.len() {
        add_links(sheet, old, &mut links)?;
    }
    Ok(links)
}

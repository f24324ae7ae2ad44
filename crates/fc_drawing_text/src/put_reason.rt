//! The text of why a read gives its bytes.

use crate::names::{put_asked, put_slot};
use crate::text::Text;
use fc_base::request::Request;
use fc_drawing::arrivals::Arrival;
use fc_drawing::drawing::Drawing;
use fc_drawing::reason::Reason;
use fc_drawing::sources::source_at;
use fc_entry::history::History;
use fc_origins::origin::Origin;

/// Puts who lacks the grain: the slots from the live one back to its holder.
fn put_lacking(drawing: Drawing<'_>, reason: Reason<'_>, text: &mut Text) {
    let chain = drawing.sheet.chain(reason.live);
    for offset in 0..reason.live.saturating_sub(reason.holder) {
        let place = reason.live - offset;
        if drawing.sheet.chain(place) == chain {
            put_slot(drawing.registry, source_at(drawing.sheet, place), text);
            text.add(b" lacks it, ");
        }
    }
    put_slot(
        drawing.registry,
        source_at(drawing.sheet, reason.holder),
        text,
    );
    text.add(b" has it\n");
}

/// How a grain came from one slot to another.
fn way_text(in_place: bool) -> &'static [u8] {
    if in_place {
        b" in place from "
    } else {
        b" copied from "
    }
}

/// Puts how a slot got the grain.
fn put_arrival(drawing: Drawing<'_>, arrival: Arrival, text: &mut Text) {
    text.add(b"    to ");
    put_slot(drawing.registry, arrival.to, text);
    match arrival.from {
        Some(from) => {
            text.add(way_text(arrival.in_place));
            put_slot(drawing.registry, from, text);
        }
        None => text.add(b" written"),
    }
    text.add(b" by ");
    put_asked(drawing.history, arrival.entry, text);
    text.add(b"\n");
}

/// Puts how the grain came to its holder, step by step, the last step first.
fn put_trail(drawing: Drawing<'_>, reason: Reason<'_>, text: &mut Text) {
    let grain = reason.part.grain;
    let arrivals = drawing.arrivals;
    let mut next = arrivals.last(drawing.sheet.slot(reason.holder), grain, arrivals.len());
    for _ in 0..arrivals.len() {
        let Some(number) = next else {
            return;
        };
        let Some(arrival) = arrivals.at(number) else {
            return;
        };
        put_arrival(drawing, arrival, text);
        next = match arrival.from {
            Some(from) => arrivals.last(from.slot, grain, number),
            None => None,
        };
    }
}

/// Puts which blocks of the volume these are.
fn put_blocks(first: u64, count: usize, text: &mut Text) {
    if count == 1 {
        text.add_count(b"    block ", first);
        return;
    }
    text.add_count(b"    blocks ", first);
    let last = first.saturating_add(count as u64).saturating_sub(1);
    text.add_count(b" to ", last);
}

/// Puts by which write blocks came, so many from this block of the volume on.
fn put_origin(history: &History, first: u64, count: usize, origin: Origin, text: &mut Text) {
    put_blocks(first, count, text);
    match origin.write {
        Some(entry) => {
            text.add(b": bytes of ");
            put_asked(history, u64::from(entry), text);
        }
        None => text.add(b": never written"),
    }
    text.add(b"\n");
}

/// How many blocks from a place on came by the same write as the one there.
fn run_at(blocks: &[Origin], from: usize) -> usize {
    for place in from..blocks.len() {
        if blocks[place] != blocks[from] {
            return place - from;
        }
    }
    blocks.len().saturating_sub(from)
}

/// Puts by which writes blocks came, the first of which is this block of the volume; those of one write together.
fn put_origins(history: &History, block: u64, blocks: &[Origin], text: &mut Text) {
    let mut from = 0;
    for _ in 0..blocks.len() {
        if from >= blocks.len() {
            return;
        }
        let count = run_at(blocks, from);
        let first = block.saturating_add(from as u64);
        put_origin(history, first, count, blocks[from], text);
        from = from.saturating_add(count);
    }
}

/// The block of the volume with which a request begins, if it reads.
fn first_block(request: &Request) -> u64 {
    match request {
        Request::Read(part) => part.block,
        _ => 0,
    }
}

/// Puts why a read gave its bytes, or found their grain lost: who has the grain, how it came there, and by which writes its blocks came.
fn put_why(drawing: Drawing<'_>, reason: Reason<'_>, text: &mut Text) {
    text.add_count(b"  grain ", reason.part.grain as u64);
    text.add(b": ");
    put_lacking(drawing, reason, text);
    put_trail(drawing, reason, text);
    match reason.blocks {
        Some(blocks) => {
            let first = first_block(&drawing.entry.request);
            put_origins(drawing.history, first, blocks, text);
        }
        None => text.add(b"    lost by a write that failed\n"),
    }
}

/// Puts why an entry read what it did, where it read anything.
pub(crate) fn put_reason(drawing: Drawing<'_>, text: &mut Text) {
    match drawing.reason {
        Some(reason) => put_why(drawing, reason, text),
        None => {}
    }
}

//! Drawings of a history's chains, put as text or as SVG.
//!
//! Two canvases (`fc_drawing::canvas`) over a sink: `TextCanvas` puts each entry as lines, with the chains where they are drawn;
//! `SvgCanvas` puts each drawing of chains as an SVG of its own, behind a line with the name of its file. Neither tells what it drew:
//! how a drawing is laid out is tested alone. A drawing is written in memory first (`text`), which is kept from one to the next, and goes
//! to the sink in one piece; where there is no memory for all of it, none of it goes.
//!
//! To read: `text`, `refused` (why a drawing wasn't put), `names` (volumes, slots, mappings and entries), `held` (grains), `put_entry`,
//! `put_reason`, `put_moves`, `put_chains`, `put_totals`, `put_end`, `kept_chains` (the text of the chains from one entry to the next) and
//! `text_canvas`; then `escaped` (what XML takes for its own),
//! `written` (lines of text), `boxes` (grains), `rows` (slots), `arrows` (moves), `svg` and `svg_canvas`.
#![tactic(auto)]

mod arrows;
mod boxes;
mod escaped;
mod held;
mod kept_chains;
mod names;
mod put_chains;
mod put_end;
mod put_entry;
mod put_moves;
mod put_reason;
mod put_totals;
mod refused;
mod rows;
mod svg;
pub mod svg_canvas;
mod text;
pub mod text_canvas;
mod written;

//! Reports: the rows that tell of mappings, groups and volumes as they stand.
//!
//! `report` gives exactly the rows of `fc_books/specs/Reports.antt`: a table of all objects under a heading, or one object
//! column by column. It changes nothing and refuses nothing; a line that names nothing has no rows. What a mapping's copy
//! holds and who needs it is asked of the sheet, which counts its grains as they change, so no grain is looked at here.
//!
//! In reading order: `fields` (a row as it grows), `layout` (the text of rows), `figures` (what is counted),
//! `mappings`, `objects` (the fields of mappings, groups and volumes), `room` (the grains of volumes that occupy memory),
//! `rows`.
#![tactic(auto)]

mod fields;
mod figures;
mod layout;
mod mappings;
mod objects;
mod room;
mod rows;

pub use rows::report;

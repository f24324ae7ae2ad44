//! The text of rows: with a delimiter, or in columns; and one object column by column.

ghost use Rattle.std.specs.Prelude.{◌≡◌, ◌<◌, [], ◌∷◌, ◌++◌, map, length, slice_index_or, IfOk, OnOk};
ghost use Rattle.std.specs.List.{join_with_byte, flat_map, range_with_len};
ghost use Rattle.std.specs.Option.{unwrap_or};
ghost use Rattle.fc_books.specs.Layout.{width_at, widths, fill, filled, laid_out};
ghost use Rattle.fc_report.specs.Beside.{beside};

use crate::fields::Fields;
use fc_base::list::List;
use fc_base::outcome::NoMemory;
use fc_base::request::Rows;
use std::alloc::Global;

/// The lines of a table: with the delimiter between fields, or in columns as wide as their longest fields.
pub fn laid_out(alloc: Global, delim: Option<u8>, rows: &[Fields]) -> Result<Rows, NoMemory>
    ensures { IfOk result (λ lines. lines ≡ laid_out delim rows.now) }
{
    match delim {
        Some(delim) => delimited(alloc, delim, rows),
        None => in_columns(alloc, rows),
    }
}

/// The lines of one object: each heading, the delimiter, by default a space, and the field.
pub fn beside(
    alloc: Global,
    delim: Option<u8>,
    headings: &[List<u8>],
    fields: &[List<u8>],
) -> Result<Rows, NoMemory>
    requires { length headings.now ≡ length fields.now }
    ensures { IfOk result (λ lines. lines ≡ beside (unwrap_or delim 32) headings.now fields.now) }
{
    let between = delim.unwrap_or(b' ');
    let mut lines = List::new(alloc);
    for (place, heading) in headings.iter().enumerate() {
        put_pair(alloc, &mut lines, heading, between, &fields[place])?;
    }
    Ok(lines)
}

/// Puts a line of a heading, the delimiter and a field.
fn put_pair(
    alloc: Global,
    lines: &mut Rows,
    heading: &List<u8>,
    delim: u8,
    field: &List<u8>,
) -> Result<(), NoMemory>
    ensures { OnOk result (lines.new ≡ lines.old ++ (heading.now ++ delim ∷ field.now) ∷ []) }
{
    let mut line = new_line(alloc, heading.as_slice())?;
    put_behind(&mut line, delim, field.as_slice())?;
    lines.push(List::of(line))
}

/// Rows as lines, with the delimiter between fields.
fn delimited(alloc: Global, delim: u8, rows: &[Fields]) -> Result<Rows, NoMemory>
    ensures { IfOk result (λ lines. lines ≡ map (join_with_byte delim) rows.now) }
{
    let mut lines = List::new(alloc);
    for row in rows {
        let line = joined(alloc, delim, row.as_slice())?;
        lines.push(line)?;
    }
    Ok(lines)
}

/// Rows as lines, each field but the last filled up to the width of its column.
fn in_columns(alloc: Global, rows: &[Fields]) -> Result<Rows, NoMemory>
    ensures { IfOk result (λ lines. lines ≡ map (λ row. join_with_byte 32 (filled (widths rows.now) row)) rows.now) }
{
    let widths = widths(alloc, rows)?;
    column_lines(alloc, widths.as_slice(), rows)
}

/// Rows as lines in columns of these widths.
fn column_lines(alloc: Global, widths: &[usize], rows: &[Fields]) -> Result<Rows, NoMemory>
    ensures { IfOk result (λ lines. lines ≡ map (λ row. join_with_byte 32 (filled widths.now row)) rows.now) }
{
    let mut lines = List::new(alloc);
    for row in rows {
        let line = column_line(alloc, widths, row.as_slice())?;
        lines.push(line)?;
    }
    Ok(lines)
}

/// One row as a line in columns of these widths.
fn column_line(alloc: Global, widths: &[usize], row: &[List<u8>]) -> Result<List<u8>, NoMemory>
    ensures { IfOk result (λ line. line ≡ join_with_byte 32 (filled widths.now row.now)) }
{
    let cells = filled(alloc, widths, row)?;
    joined(alloc, b' ', cells.as_slice())
}

/// The widths of all columns but the last.
fn widths(alloc: Global, rows: &[Fields]) -> Result<Vec<usize>, NoMemory>
    ensures { IfOk result (λ found. found.items ≡ widths rows.now) }
{
    match rows {
        [] => Ok(Vec::new(alloc)),
        [first, ..] => widths_below(alloc, rows, first.len().saturating_sub(1)),
    }
}

/// The widths of the first columns, as many as are asked for.
fn widths_below(alloc: Global, rows: &[Fields], columns: usize) -> Result<Vec<usize>, NoMemory>
    ensures { IfOk result (λ found. found.items ≡ map (width_at rows.now) (range_with_len 0 columns)) }
{
    let mut found = Vec::new(alloc);
    for column in 0..columns {
        match found.push(width_at(rows, column)) {
            Ok(()) => {}
            Err(_) => return Err(NoMemory),
        }
    }
    Ok(found)
}

/// How long the longest field of a column is.
fn width_at(rows: &[Fields], column: usize) -> usize
    ensures { result ≡ width_at rows.now column }
{
    let mut width: usize = 0;
    for row in rows {
        width = width.max(length_at(row.as_slice(), column));
    }
    width
}

/// How long a row's field is; 0 where it has none.
fn length_at(row: &[List<u8>], column: usize) -> usize
    ensures { result ≡ length (slice_index_or row.now column []) }
{
    if column < row.len() {
        row[column].len()
    } else {
        0
    }
}

/// The fields of a row, each filled up to the width of its column.
fn filled(alloc: Global, widths: &[usize], row: &[List<u8>]) -> Result<Fields, NoMemory>
    ensures { IfOk result (λ cells. cells ≡ filled widths.now row.now) }
{
    let mut cells = List::new(alloc);
    for (place, field) in row.iter().enumerate() {
        let cell = fill(alloc, at_or_zero(widths, place), field.as_slice())?;
        cells.push(cell)?;
    }
    Ok(cells)
}

/// The number at a place; 0 past the end.
fn at_or_zero(numbers: &[usize], place: usize) -> usize
    ensures { result ≡ slice_index_or numbers.now place 0 }
{
    if place < numbers.len() {
        numbers[place]
    } else {
        0
    }
}

/// A text filled with spaces at its right, up to a width.
fn fill(alloc: Global, width: usize, text: &[u8]) -> Result<List<u8>, NoMemory>
    ensures { IfOk result (λ cell. cell ≡ fill width text.now) }
{
    let mut cell = new_line(alloc, text)?;
    match cell.resize(width.max(text.len()), b' ') {
        Ok(()) => Ok(List::of(cell)),
        Err(_) => Err(NoMemory),
    }
}

/// Texts in one line, with a byte between each two.
fn joined(alloc: Global, delim: u8, texts: &[List<u8>]) -> Result<List<u8>, NoMemory>
    ensures { IfOk result (λ line. line ≡ join_with_byte delim texts.now) }
{
    match texts {
        [] => Ok(List::new(alloc)),
        [first, next @ ..] => joined_behind(alloc, first.as_slice(), delim, next),
    }
}

/// A text, and each of the others behind the byte.
fn joined_behind(
    alloc: Global,
    first: &[u8],
    delim: u8,
    next: &[List<u8>],
) -> Result<List<u8>, NoMemory>
    ensures { IfOk result (λ line. line ≡ first.now ++ flat_map (λ text. delim ∷ text) next.now) }
{
    let mut line = new_line(alloc, first)?;
    for text in next {
        put_behind(&mut line, delim, text.as_slice())?;
    }
    Ok(List::of(line))
}

/// A line that begins with a text.
fn new_line(alloc: Global, text: &[u8]) -> Result<Vec<u8>, NoMemory>
    ensures { IfOk result (λ line. line.items ≡ text.now) }
{
    match Vec::from_slice(alloc, text) {
        Ok(line) => Ok(line),
        Err(_) => Err(NoMemory),
    }
}

/// Puts a byte and a text at the end of a line.
fn put_behind(line: &mut Vec<u8>, delim: u8, text: &[u8]) -> Result<(), NoMemory>
    ensures { OnOk result (line.new.items ≡ line.old.items ++ delim ∷ text.now) }
{
    if line.push(delim).is_err() {
        return Err(NoMemory);
    }
    if line.extend_from_slice(text).is_err() {
        return Err(NoMemory);
    }
    Ok(())
}

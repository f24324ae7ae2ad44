//! Rows of fields, as they grow.

ghost use Rattle.std.specs.Prelude.{◌≡◌, [], ◌∷◌, ◌++◌, map, decimal, IfOk, OnOk};

use fc_base::list::List;
use fc_base::outcome::NoMemory;
use itoa::Buffer;
use std::alloc::Global;

/// The fields of a row, each its bytes.
pub type Fields = List<List<u8>>;

/// The rows of a table, the headings first.
pub type Table = List<List<List<u8>>>;

/// A text of its own.
pub fn text_of(alloc: Global, bytes: &[u8]) -> Result<List<u8>, NoMemory>
    ensures { IfOk result (λ text. text ≡ bytes.now) }
{
    match Vec::from_slice(alloc, bytes) {
        Ok(bytes) => Ok(List::of(bytes)),
        Err(_) => Err(NoMemory),
    }
}

/// Puts a text at the end of a row.
pub fn put_text(alloc: Global, row: &mut Fields, bytes: &[u8]) -> Result<(), NoMemory>
    ensures { OnOk result (row.new ≡ row.old ++ bytes.now ∷ []) }
{
    let text = text_of(alloc, bytes)?;
    row.push(text)
}

/// Puts a number at the end of a row.
pub fn put_number(alloc: Global, row: &mut Fields, number: u64) -> Result<(), NoMemory>
    ensures { OnOk result (row.new ≡ row.old ++ decimal number ∷ []) }
{
    let mut digits = Buffer::new();
    put_text(alloc, row, digits.format(number).as_bytes())
}

/// Puts an id and a name at the end of a row.
pub fn put_named(alloc: Global, row: &mut Fields, id: u32, name: &[u8]) -> Result<(), NoMemory>
    ensures { OnOk result (row.new ≡ row.old ++ decimal id ∷ name.now ∷ []) }
{
    put_number(alloc, row, u64::from(id))?;
    put_text(alloc, row, name)
}

/// Puts two numbers at the end of a row.
pub fn put_numbers(alloc: Global, row: &mut Fields, first: u64, second: u64) -> Result<(), NoMemory>
    ensures { OnOk result (row.new ≡ row.old ++ decimal first ∷ decimal second ∷ []) }
{
    put_number(alloc, row, first)?;
    put_number(alloc, row, second)
}

/// A row of these texts.
pub fn row_of(alloc: Global, texts: &[&[u8]]) -> Result<Fields, NoMemory>
    ensures { IfOk result (λ row. row ≡ map (λ text. text.now) texts.now) }
{
    let mut row = List::new(alloc);
    for text in texts {
        put_text(alloc, &mut row, text)?;
    }
    Ok(row)
}

/// A table of the headings alone.
pub fn headed(alloc: Global, headings: Fields) -> Result<Table, NoMemory>
    ensures { IfOk result (λ rows. rows ≡ headings ∷ []) }
{
    let mut rows = List::new(alloc);
    rows.push(headings)?;
    Ok(rows)
}

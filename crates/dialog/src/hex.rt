// Words of bytes and of symbols: two digits a byte, four a symbol. A dash stands for none.
ghost use Rattle.std.specs.Prelude.{◌≡◌, IfOk, vec_items};
ghost use Rattle.std.specs.Option.{option_map};
ghost use Rattle.dialog.specs.Cells.{dashed, bytes as bytes_of, symbols as symbols_of, byte_text, symbol_text, Spells};

use crate::cell::Cell;
use std::alloc::{AllocError, Global};

// The cells of a row of digits.
fn read_row<T: Cell>(heap: Global, digits: &[u8]) -> Result<Option<Vec<T>>, AllocError>
    ensures { IfOk result (λ o. option_map vec_items o ≡ T.read_all digits.now) }
{
    let mut cells = Vec::new(heap);
    for piece in digits.chunks(T::DIGITS) {
        let Some(cell) = T::of_digits(piece) else {
            return Ok(None);
        };
        cells.push(cell)?;
    }
    Ok(Some(cells))
}

// The cells that a word stands for, if it is readable.
fn cells_in<T: Cell>(heap: Global, word: &str) -> Result<Option<Vec<T>>, AllocError>
    ensures { IfOk result (λ o. option_map vec_items o ≡ dashed T.read_all word.now) }
{
    match word.as_bytes() {
        [b'-'] => Ok(Some(Vec::new(heap))),
        [] => Ok(None),
        digits => read_row(heap, digits),
    }
}

// The word that stands for cells.
fn cells_text<T: Cell>(heap: Global, cells: &[T]) -> Result<Vec<u8>, AllocError>
    ensures { IfOk result (λ v. Spells (dashed T.read_all) T.written cells.now v.items) }
{
    if cells.is_empty() {
        return Vec::from_slice(heap, b"-");
    }
    let mut out = Vec::new(heap);
    for cell in cells {
        cell.push_digits(&mut out)?;
    }
    Ok(out)
}

// Kept: four calls of one line, since each states its words for one kind of cell.
// The bytes that a word stands for, if it is readable.
pub fn bytes_in(heap: Global, word: &str) -> Result<Option<Vec<u8>>, AllocError>
    ensures { IfOk result (λ o. option_map vec_items o ≡ bytes_of word.now) }
{
    cells_in(heap, word)
}

// The symbols that a word stands for, if it is readable.
pub fn symbols_in(heap: Global, word: &str) -> Result<Option<Vec<u16>>, AllocError>
    ensures { IfOk result (λ o. option_map vec_items o ≡ symbols_of word.now) }
{
    cells_in(heap, word)
}

// The word that stands for bytes.
pub fn bytes_text(heap: Global, bytes: &[u8]) -> Result<Vec<u8>, AllocError>
    ensures { IfOk result (λ v. Spells bytes_of byte_text bytes.now v.items) }
{
    cells_text(heap, bytes)
}

// The word that stands for symbols.
pub fn symbols_text(heap: Global, symbols: &[u16]) -> Result<Vec<u8>, AllocError>
    ensures { IfOk result (λ v. Spells symbols_of symbol_text symbols.now v.items) }
{
    cells_text(heap, symbols)
}

// The words of a line as what a call takes.
use crate::reasons::Reason;
use code::plan::Counts;
use cutting::request::FieldChoice;
use dialog::decimal::number_in;
use dialog::hex::{bytes_in, symbols_in};
use packet::Job;
use std::alloc::Global;

// The cells of the longest buffer.
const MOST_CELLS: usize = 1_000_000;

pub fn number(word: &str) -> Result<usize, Reason> {
    number_in(word).ok_or(Reason::NoNumber)
}

// A number that its type can hold.
fn fitting<T: TryFrom<usize>>(word: &str) -> Result<T, Reason>
where
    T::Error: Drop,
{
    T::try_from(number(word)?).map_err(|_| Reason::TooLarge)
}

pub fn counts(data: &str, checks: &str, symbols: &str) -> Result<Counts, Reason> {
    Ok(Counts {
        data_count: number(data)?,
        check_count: number(checks)?,
        row_len: number(symbols)?,
    })
}

// Kept: a function, since these words are the console's own and a `FromStr` would make them the cutter's.
pub fn field(word: &str) -> Result<FieldChoice, Reason> {
    match word {
        "byte" => Ok(FieldChoice::Byte),
        "nibble" => Ok(FieldChoice::Nibble),
        "prime" => Ok(FieldChoice::Prime),
        _ => Err(Reason::NoField),
    }
}

pub fn job(number: &str, length: &str) -> Result<Job, Reason> {
    Ok(Job {
        number: fitting(number)?,
        length: fitting(length)?,
    })
}

// Kept: two calls of one line, since each has a `Reason` of its own.
pub fn bytes(heap: Global, word: &str) -> Result<Vec<u8>, Reason> {
    bytes_in(heap, word)?.ok_or(Reason::NoBytes)
}

pub fn symbols(heap: Global, word: &str) -> Result<Vec<u16>, Reason> {
    symbols_in(heap, word)?.ok_or(Reason::NoSymbols)
}

// A buffer whose cells all hold the same.
pub fn filled<T>(heap: Global, count: &str, fill: &str) -> Result<Vec<T>, Reason>
where
    T: Copy + TryFrom<usize>,
    T::Error: Drop,
{
    let count = number(count)?;
    if count > MOST_CELLS {
        return Err(Reason::TooLarge);
    }
    let cell: T = fitting(fill)?;
    Ok(vec![in heap; cell; count]?)
}

// Opening a packet, and reading its header and its row.
ghost use Rattle.std.specs.Prelude.{◌≡◌};
ghost use Rattle.checks.specs.Checks.{at, answered};
ghost use Rattle.code.specs.Plans.{view};
ghost use Rattle.packet.specs.Bytes.{word, symbol_bytes, symbol_at, ReadFrom};
ghost use Rattle.packet.specs.Opening.{opening, opened, viewed};

use crate::fault::PacketFault;
use crate::{
    DATA_COUNT_AT, HEADER_LEN, MARK, MARK_AT, NUMBER_AT, Packet, ROW_COUNT_AT, ROW_LEN_AT,
    ROW_OFFSET_AT, SIZE_AT,
};
use code::plan::Plan;

// A byte past the end counts as 0.
fn byte_at(bytes: &[u8], place: usize) -> u8
    ensures { result ≡ at bytes.now place }
{
    bytes.get(place).copied().unwrap_or(0)
}

// The number of 16 bits whose high byte stands at `place`. A byte past the end counts as 0.
pub fn word_at(bytes: &[u8], place: usize) -> u16
    ensures { result ≡ word bytes.now place }
{
    let high = byte_at(bytes, place);
    let low = byte_at(bytes, place.saturating_add(1));
    u16::from_be_bytes([high, low])
}

// The bytes that a symbol of a field of this size takes.
pub(crate) fn symbol_bytes(size: u32) -> usize
    ensures { result ≡ symbol_bytes size }
{
    if size > 256 { 2 } else { 1 }
}

// Refuses bytes that are no packet. The first rule that they break decides.
fn examine(bytes: &[u8]) -> Result<(), PacketFault>
    ensures { result ≡ answered (opening bytes.now) tt }
{
    if bytes.len() < HEADER_LEN {
        return Err(PacketFault::Length(bytes.len()));
    }
    if !bytes.starts_with(&MARK) {
        return Err(PacketFault::Layout(MARK_AT));
    }
    if usize::from(word_at(bytes, ROW_OFFSET_AT)) != HEADER_LEN {
        return Err(PacketFault::Layout(ROW_OFFSET_AT));
    }
    let count = usize::from(word_at(bytes, ROW_COUNT_AT));
    let size = u32::from(word_at(bytes, SIZE_AT)) + 1;
    if count != usize::from(word_at(bytes, ROW_LEN_AT)) * symbol_bytes(size) {
        return Err(PacketFault::Layout(ROW_COUNT_AT));
    }
    if bytes.len() != HEADER_LEN + count {
        return Err(PacketFault::Length(bytes.len()));
    }
    Ok(())
}

// Opens a packet: a data or a check packet by its header's own count of data packets.
pub fn open(bytes: &[u8]) -> Result<Packet<'_>, PacketFault>
    ensures { viewed result ≡ answered (opening bytes.now) (opened bytes.now) }
{
    examine(bytes)?;
    let number = word_at(bytes, NUMBER_AT);
    let (_, row) = bytes.split_at(HEADER_LEN);
    if number < word_at(bytes, DATA_COUNT_AT) {
        Ok(Packet::Data { number, row })
    } else {
        Ok(Packet::Check { number, row })
    }
}

// Symbol `s` of the bytes of a row. A byte past the end counts as 0.
fn symbol_at(size: u32, bytes: &[u8], s: usize) -> u16
    ensures { result ≡ symbol_at size bytes.now s }
{
    if symbol_bytes(size) == 2 {
        word_at(bytes, s.saturating_mul(2))
    } else {
        u16::from(byte_at(bytes, s))
    }
}

// Reads the bytes of a row into `row`, as many symbols as it takes. A byte past the end counts as 0.
pub fn symbols_of(plan: &Plan, bytes: &[u8], row: &mut [u16])
    ensures { ReadFrom (view plan.now).q bytes.now row.new }
{
    let size = plan.size();
    for (s, symbol) in row.iter_mut().enumerate() {
        *symbol = symbol_at(size, bytes, s);
    }
}

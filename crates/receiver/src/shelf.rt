// The receiver's store of rows.
ghost use Rattle.std.specs.Prelude.{◌≡◌, ◌+◌, ◌*◌, ◌≤◌, length, take, replicate};
ghost use Rattle.receiver.specs.Shelves.{shelved, with_row, row_on};

pub const SHELF_LEN: usize = 8192;

// The symbols of up to 64 rows of up to 128 symbols, one row behind the other.
// Kept: fixed memory in this form, for the device.
#[derive(Clone, Copy)]
pub struct Shelf {
    symbols: [u16; 8192],
}

impl Shelf {
    pub(crate) fn new() -> Shelf
        ensures { shelved result ≡ replicate 8192 0 }
    {
        Shelf { symbols: [0; 8192] }
    }

    // Writes a row at place `t`, where rows are as long as it is.
    pub(crate) fn put(&mut self, t: usize, row: &[u16])
        requires within { t * length row.now + length row.now ≤ 8192 }
        ensures room { length (shelved self.old) ≡ 8192 }
        ensures leaves { shelved self.new
            ≡ with_row (shelved self.old) t row.now }
    {
        let start = t * row.len();
        self.symbols[start..start + row.len()].copy_from_slice(row);
    }

    // The row at place `t`, where rows are `len` symbols.
    pub(crate) fn row(&self, t: usize, len: usize) -> &[u16]
        requires within { t * len + len ≤ 8192 }
        ensures { result.now ≡ row_on (shelved self.now) t len }
    {
        &self.symbols[t * len..t * len + len]
    }

    // The first rows, `count` symbols of them.
    pub(crate) fn front(&self, count: usize) -> &[u16]
        requires within { count ≤ 8192 }
        ensures { result.now ≡ take count (shelved self.now) }
    {
        &self.symbols[..count]
    }
}

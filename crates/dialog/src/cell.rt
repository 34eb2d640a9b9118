// Bytes and symbols as digits of base sixteen, high ones first.
ghost use Rattle.std.specs.Prelude.{◌≡◌, ℕ, ◌<◌, ◌^◌, List, ◌++◌, Option, IfSome, OnOk};
ghost use Rattle.dialog.specs.Cells.{digit as digit_of, letter as letter_of, byte_in, symbol_in, byte_row, symbol_row, byte_text, symbol_text, Lawful};
ghost use Rattle.dialog.specs.Laws.{byte_lawful, symbol_lawful};

use std::alloc::AllocError;

// A number of a buffer, which digits write.
pub trait Cell: Copy {
    // The digits of one cell.
    const DIGITS: usize;

    ghost DIGITS: { ℕ };

    // The cell that digits write, and all cells that a row of digits writes.
    ghost read_one: { List ℕ → Option Self };

    ghost read_all: { List ℕ → Option (List Self) };

    ghost written: { Self → List ℕ };

    fn of_digits(digits: &[u8]) -> Option<Self>
        ensures { result ≡ read_one digits.now };

    fn push_digits(self, out: &mut Vec<u8>) -> Result<(), AllocError>
        ensures pushed { OnOk result (out.new.items ≡ out.old.items ++ written self) }
        ensures back { read_one (written self) ≡ Some self };

    ghost lawful: { Lawful DIGITS read_one read_all written };
}

// The value of a digit, of either case.
fn digit(c: u8) -> Option<u8>
    ensures answers { result ≡ digit_of c }
    ensures bounds { IfSome result (λ d. d < 16) }
{
    char::from(c).to_digit(16).map(|d| d as u8)
}

// How a digit is written.
fn letter(d: u8) -> u8
    requires { d < 16 }
    ensures { result ≡ letter_of d }
{
    b"0123456789abcdef"[usize::from(d)]
}

impl Cell for u8 {
    const DIGITS: usize = 2;

    ghost DIGITS = { 2 };

    ghost read_one = { byte_in };

    ghost read_all = { byte_row };

    ghost written = { byte_text };

    fn of_digits(digits: &[u8]) -> Option<u8> {
        let [high, low] = digits else {
            return None;
        };
        Some(digit(*high)? * 16 + digit(*low)?)
    }

    fn push_digits(self, out: &mut Vec<u8>) -> Result<(), AllocError> {
        out.extend_from_slice(&[letter(self / 16), letter(self % 16)])
    }

    ghost lawful = { byte_lawful };
}

impl Cell for u16 {
    const DIGITS: usize = 4;

    ghost DIGITS = { 4 };

    ghost read_one = { symbol_in };

    ghost read_all = { symbol_row };

    ghost written = { symbol_text };

    fn of_digits(digits: &[u8]) -> Option<u16> {
        let (high, low) = digits.split_at_checked(2)?;
        Some(u16::from_be_bytes([u8::of_digits(high)?, u8::of_digits(low)?]))
    }

    fn push_digits(self, out: &mut Vec<u8>) -> Result<(), AllocError> {
        let [high, low] = self.to_be_bytes();
        high.push_digits(out)?;
        low.push_digits(out)
    }

    ghost lawful = { symbol_lawful };
}

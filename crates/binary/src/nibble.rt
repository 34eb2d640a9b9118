// The nibble field.
ghost use Rattle.binary.specs.Instances.{nibble_tested};

use crate::binary_field::BinaryField;
use crate::tables::Tables;

const DEGREE: u16 = 4;

// x^4 + x + 1.
const POLYNOMIAL: u16 = 0b1_0011;

// x to the power 0, to the power 1, and so on: at 15 they begin again.
const POWERS: &[u8; 30] = b"\
    \x01\x02\x04\x08\x03\x06\x0c\x0b\x05\x0a\x07\x0e\x0f\x0d\x09\x01\x02\x04\x08\x03\x06\x0c\x0b\x05\x0a\x07\x0e\x0f\x0d\x09";

// The exponent of 1, of 2, and so on; there is none of 0.
const EXPONENTS: &[u8; 16] = b"\
    \x00\x00\x01\x04\x02\x08\x05\x0a\x03\x0e\x09\x07\x06\x0d\x0b\x0c";

// The field of 16 elements, whose products are reduced by x^4 + x + 1.
pub type NibbleField = BinaryField<POLYNOMIAL, DEGREE>;

impl Tables<POLYNOMIAL, DEGREE> for NibbleField {
    ghost tested = { nibble_tested };

    fn powers() -> &'static [u8] {
        POWERS
    }

    fn exponents() -> &'static [u8] {
        EXPONENTS
    }
}

// The field of the remainders by 257.
#![tactic(auto)]

ghost use Rattle.std.specs.Prelude.{◌≡◌, ◌<◌, if◌then◌else◌, nat_lt};
ghost use Rattle.prime.specs.Prime.{prime, prime_size, inverse_table};
ghost use Rattle.prime.specs.Instance;

use field::{Field, SteppedField};

const SIZE: u16 = 257;

// The greatest element, which is its own inverse.
const LAST: u16 = 256;

const STEP: u16 = 3;

const PERIOD: u32 = 256;

// The inverse of each element but the last.
const INVERSES: &[u8; 256] = b"\
    \x00\x01\x81\x56\xc1\x67\x2b\x93\xe1\xc8\xb4\xbb\x96\xb2\xca\x78\xf1\x79\x64\xe6\x5a\x31\xde\xbe\x4b\x48\x59\xee\x65\xc3\x3c\xc7\
    \xf9\x94\xbd\xeb\x32\x84\x73\x91\x2d\xa3\x99\x06\x6f\x28\x5f\xaf\xa6\x15\x24\x7e\xad\x61\x77\xf3\xb3\xf8\xe2\x3d\x1e\x3b\xe4\x66\
    \xfd\x57\x4a\xea\xdf\x95\xf6\xb5\x19\xa9\x42\x18\xba\xf7\xc9\xf4\x97\xa5\xd2\x60\xcd\x7f\x03\x41\xb8\x1a\x14\xd1\xb0\x98\xd8\x2e\
    \x53\x35\x8b\x87\x12\x1c\x3f\x05\xd7\xa4\xb1\xf5\xbc\xe0\xfa\x2c\xda\x74\x7c\x26\x71\x86\x9f\x36\x0f\x11\x9e\x8c\x72\xdc\x33\x55\
    \xff\x02\xac\xce\x25\x8f\x75\x63\xf0\xf2\xcb\x62\x7b\x90\xdb\x85\x8d\x27\xd5\x07\x21\x45\x0c\x50\x5d\x2a\xfc\xc2\xe5\xef\x7a\x76\
    \xcc\xae\xd3\x29\x69\x51\x30\xed\xe7\x49\xc0\xfe\x82\x34\xa1\x2f\x5c\x6a\x0d\x38\x0a\x47\xe9\xbf\x58\xe8\x4c\x0b\x6c\x22\x17\xb7\
    \xaa\x04\x9b\x1d\xc6\xe3\xc4\x1f\x09\x4e\x0e\x8a\xa0\x54\x83\xdd\xec\x5b\x52\xa2\xd9\x92\xfb\x68\x5e\xd4\x70\x8e\x7d\xcf\x16\x44\
    \x6d\x08\x3a\xc5\x3e\x9c\x13\xa8\xb9\xb6\x43\x23\xd0\xa7\x1b\x9d\x88\x10\x89\x37\x4f\x6b\x46\x4d\x39\x20\x6e\xd6\x9a\x40\xab\x80";

fn inverses() -> &'static [u8; 256]
    ensures { result.now ≡ inverse_table prime_size 256 0 }
{
    INVERSES
}

// A number of 257 or more counts as 0.
// Kept: three lines as in `binary`, since one for both would be a call of every field that only these two use.
fn element(a: u16) -> u16
    ensures { result ≡ (if nat_lt a prime_size then a else 0) }
{
    if a < SIZE { a } else { 0 }
}

#[tactic(auto, using(crate::specs::Instance::inverse_last, crate::specs::Instance::inverse_low))]
fn element_inverse(a: u16) -> u16
    requires element { a < prime_size }
    ensures { result ≡ prime.inverse a }
{
    if a == LAST {
        LAST
    } else {
        u16::from(inverses()[usize::from(a)])
    }
}

// The field of 257 elements.
#[derive(Clone, Copy)]
pub struct PrimeField {}

impl Field for PrimeField {
    ghost ops = { λ _. prime };

    ghost lawful = { λ f. Instance.lawful };

    fn size(&self) -> u32 {
        u32::from(SIZE)
    }

    fn sum(&self, a: u16, b: u16) -> u16 {
        (element(a) + element(b)) % SIZE
    }

    fn negative(&self, a: u16) -> u16 {
        (SIZE - element(a)) % SIZE
    }

    fn product(&self, a: u16, b: u16) -> u16 {
        let whole = u32::from(element(a)) * u32::from(element(b));
        (whole % u32::from(SIZE)) as u16
    }

    fn inverse(&self, a: u16) -> u16 {
        element_inverse(element(a))
    }
}

impl SteppedField for PrimeField {
    ghost first = { λ _. 3 };

    ghost period = { λ _. 256 };

    #[tactic(auto, using(crate::specs::Instance::steps))]
    fn step(&self) -> (u16, u32) {
        (STEP, PERIOD)
    }
}

#[cfg(test)]
mod tests;

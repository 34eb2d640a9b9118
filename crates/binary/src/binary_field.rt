// A field of polynomials over two values, whose products and inverses come from tables.
ghost use Rattle.std.specs.Prelude.{◌≡◌, ◌*◌, ◌^◌, ◌-◌, ◌<◌};
ghost use Rattle.checks.specs.Checks.{at};
ghost use Rattle.field.specs.Field.{element};
ghost use Rattle.binary.specs.Binary.{binary};
ghost use Rattle.binary.specs.Tables.{power_table, exponent_table};
ghost use Rattle.binary.specs.Lookup;

use crate::tables::Tables;
use field::{Field, SteppedField};

// x, whose powers are all elements but 0.
const STEP: u16 = 2;

// The field of 2 ^ DEGREE elements, whose products are reduced by POLYNOMIAL.
#[derive(Clone, Copy)]
pub struct BinaryField<const POLYNOMIAL: u16, const DEGREE: u16> {}

impl<const POLYNOMIAL: u16, const DEGREE: u16> BinaryField<POLYNOMIAL, DEGREE>
where
    Self: Tables<POLYNOMIAL, DEGREE>,
{
    // A number of the size or more counts as 0.
    fn element(&self, a: u16) -> u16
        ensures { result ≡ element (binary POLYNOMIAL DEGREE) a }
    {
        if u32::from(a) < self.size() { a } else { 0 }
    }

    // x to the power k.
    fn power(k: usize) -> u16
        requires within { k < 2 * (2 ^ DEGREE - 1) }
        ensures { result ≡ at (power_table POLYNOMIAL DEGREE) k }
    {
        u16::from(Self::powers()[k])
    }

    // Which power of x the element a is.
    fn exponent(a: u16) -> usize
        requires element { a < 2 ^ DEGREE }
        ensures answers { result ≡ at (exponent_table POLYNOMIAL DEGREE) a }
        ensures below { result < 2 ^ DEGREE - 1 }
    {
        usize::from(Self::exponents()[usize::from(a)])
    }

    // Exponents add up, and the powers stand in their table twice; a product with 0 is 0.
    #[tactic(auto, using(crate::specs::Linear::zero_left, crate::specs::Linear::zero_right))]
    fn element_product(a: u16, b: u16) -> u16
        requires element { (a < 2 ^ DEGREE) × (b < 2 ^ DEGREE) }
        ensures { result ≡ (binary POLYNOMIAL DEGREE).product a b }
    {
        match (a, b) {
            (0, _) | (_, 0) => 0,
            _ => Self::power(Self::exponent(a) + Self::exponent(b)),
        }
    }

    // The exponent of a and one of its inverse add up to 2 ^ DEGREE - 1, at which the power is 1 again; the inverse of 0 is 0.
    fn element_inverse(&self, a: u16) -> u16
        requires element { a < 2 ^ DEGREE }
        ensures { result ≡ (binary POLYNOMIAL DEGREE).inverse a }
    {
        match a {
            0 => 0,
            _ => Self::power(self.size() as usize - 1 - Self::exponent(a)),
        }
    }
}

impl<const POLYNOMIAL: u16, const DEGREE: u16> Field for BinaryField<POLYNOMIAL, DEGREE>
where
    Self: Tables<POLYNOMIAL, DEGREE>,
{
    ghost ops = { λ _. binary POLYNOMIAL DEGREE };

    ghost lawful = { λ f. Lookup.lawful ⟦<Self as Tables<POLYNOMIAL, DEGREE>>⟧.tested };

    #[tactic(auto, using(crate::specs::Tested::degree_below))]
    fn size(&self) -> u32 {
        1 << DEGREE
    }

    fn sum(&self, a: u16, b: u16) -> u16 {
        self.element(a) ^ self.element(b)
    }

    fn negative(&self, a: u16) -> u16 {
        self.element(a)
    }

    fn product(&self, a: u16, b: u16) -> u16 {
        Self::element_product(self.element(a), self.element(b))
    }

    fn inverse(&self, a: u16) -> u16 {
        self.element_inverse(self.element(a))
    }
}

impl<const POLYNOMIAL: u16, const DEGREE: u16> SteppedField for BinaryField<POLYNOMIAL, DEGREE>
where
    Self: Tables<POLYNOMIAL, DEGREE>,
{
    ghost first = { λ _. 2 };

    ghost period = { λ _. 2 ^ DEGREE - 1 };

    fn step(&self) -> (u16, u32) {
        (STEP, self.size() - 1)
    }
}

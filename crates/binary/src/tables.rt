// What one field of polynomials brings: its tables, and that they are tested.
ghost use Rattle.std.specs.Prelude.{◌≡◌};
ghost use Rattle.binary.specs.Tables.{power_table, exponent_table};
ghost use Rattle.binary.specs.Tested.{Tested};

// The tables of the field of 2 ^ DEGREE elements, whose products are reduced by POLYNOMIAL.
pub trait Tables<const POLYNOMIAL: u16, const DEGREE: u16> {
    // Read by the proofs alone.
    ghost tested: { Tested POLYNOMIAL DEGREE };

    // x to the power 0, to the power 1, and so on, through all powers twice.
    fn powers() -> &'static [u8]
        ensures { result.now ≡ power_table POLYNOMIAL DEGREE };

    // The exponent of 1, of 2, and so on; what stands for 0 is not used.
    fn exponents() -> &'static [u8]
        ensures { result.now ≡ exponent_table POLYNOMIAL DEGREE };
}

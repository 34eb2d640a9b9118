// Two fields of polynomials over two values: bit i of a number is the coefficient of x to the power i.
#![tactic(auto)]

mod binary_field;
mod byte;
mod nibble;
mod tables;

pub use binary_field::BinaryField;
pub use byte::ByteField;
pub use nibble::NibbleField;

#[cfg(test)]
mod tests;

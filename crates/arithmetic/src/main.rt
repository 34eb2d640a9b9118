// Prints the arithmetic of the three fields. The file `stdout` beside it was made by other software (tools/vectors).
#![tactic(auto)]

use binary::{ByteField, NibbleField};
use field::Field;
use prime::PrimeField;
use std::io;

// The powers of x from 0 on, reduced.
fn print_powers<F: Field>(rt: &HostRuntime, field: &F, name: &str, count: u32) -> io::Result<()> {
    let mut power = 1;
    for k in 0..count {
        println!(rt; "{name} poly {k} {power}")?;
        power = field.product(power, 2);
    }
    Ok(())
}

// One row of the tables: over all b, the sums a + b and the products a · b, each taken into a number by `take_in`.
fn row<F: Field, T: Fn(u32, u32, u16) -> u32>(field: &F, a: u16, take_in: T) -> (u32, u32)
    requires { T.IsAlwaysCallable take_in }
{
    let mut sums = 0;
    let mut products = 0;
    for b in 0..field.size() {
        sums = take_in(sums, b, field.sum(a, b as u16));
        products = take_in(products, b, field.product(a, b as u16));
    }
    (sums, products)
}

// Adds up plain numbers, each times b + 1.
fn weighted(total: u32, b: u32, symbol: u16) -> u32 {
    total.wrapping_add(b.wrapping_add(1).wrapping_mul(u32::from(symbol)))
}

// A hash, so that no two errors cancel.
fn hashed(hash: u32, _b: u32, symbol: u16) -> u32 {
    hash.wrapping_mul(263).wrapping_add(u32::from(symbol)) % 1_000_003
}

fn print_table<F: Field>(rt: &HostRuntime, field: &F, name: &str) -> io::Result<()> {
    for a in 0..field.size() {
        let a = a as u16;
        let negative = field.negative(a);
        let inverse = field.inverse(a);
        let (sums, products) = row(field, a, weighted);
        println!(rt; "{name} {a} {negative} {inverse} {sums} {products}")?;
    }
    Ok(())
}

fn print_rows<F: Field>(rt: &HostRuntime, field: &F, name: &str) -> io::Result<()> {
    for a in 0..field.size() {
        let (sums, products) = row(field, a as u16, hashed);
        println!(rt; "{name} rows {a} {sums} {products}")?;
    }
    Ok(())
}

fn main(rt: HostRuntime) -> io::Result<()> {
    print_powers(&rt, &NibbleField {}, "nibble", 7)?;
    print_powers(&rt, &ByteField {}, "byte", 15)?;
    print_table(&rt, &NibbleField {}, "nibble")?;
    print_table(&rt, &ByteField {}, "byte")?;
    print_table(&rt, &PrimeField {}, "prime")?;
    print_rows(&rt, &NibbleField {}, "nibble")?;
    print_rows(&rt, &ByteField {}, "byte")?;
    print_rows(&rt, &PrimeField {}, "prime")
}

// Values that are known from elsewhere.
use crate::PrimeField;
use field::Field;

#[test]
fn the_prime_field_has_known_products_and_inverses(rt: HostRuntime) {
    let field = PrimeField {};
    assert_eq!(rt; field.product(16, 16), 256);
    assert_eq!(rt; field.inverse(2), 129);
    assert_eq!(rt; field.inverse(3), 86);
}

#[test]
fn a_number_of_257_or_more_counts_as_0(rt: HostRuntime) {
    let field = PrimeField {};
    assert_eq!(rt; field.sum(257, 256), 256);
    assert_eq!(rt; field.product(258, 256), 0);
}

// Values that are known from elsewhere, as from tables of these fields.
use crate::{ByteField, NibbleField};
use field::{Field, SteppedField};

#[test]
fn the_byte_field_has_known_products_and_inverses(rt: HostRuntime) {
    let field = ByteField {};
    assert_eq!(rt; field.product(2, 128), 29);
    assert_eq!(rt; field.inverse(2), 142);
    assert_eq!(rt; field.inverse(3), 244);
}

#[test]
fn the_nibble_field_has_known_products_and_inverses(rt: HostRuntime) {
    let field = NibbleField {};
    assert_eq!(rt; field.product(2, 8), 3);
    assert_eq!(rt; field.inverse(2), 9);
}

#[test]
fn a_number_of_the_size_or_more_counts_as_0(rt: HostRuntime) {
    assert_eq!(rt; ByteField {}.sum(256, 7), 7);
    assert_eq!(rt; NibbleField {}.product(16, 7), 0);
}

#[test]
fn the_powers_of_x_begin_again_after_all_elements_but_0(rt: HostRuntime) {
    assert_eq!(rt; ByteField {}.step(), (2, 255));
    assert_eq!(rt; NibbleField {}.step(), (2, 15));
}

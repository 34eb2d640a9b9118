// Jobs of known bytes and their symbols.
use crate::fault::JobFault;
use crate::order::{first_rest, first_unfit};
use crate::spread::Spread;
use crate::{capacity, pack, unpack};
use code::plan::Plan;

#[test]
fn the_unmade_plan_holds_no_byte(rt: HostRuntime) {
    let plan = Plan::new();
    let mut message = [7];
    assert_eq!(rt; capacity(&plan), 0);
    assert_eq!(rt; pack(&plan, &[1], &mut message), Err(JobFault::Capacity(0)));
    assert_eq!(rt; message, [7]);
    assert_eq!(rt; unpack(&plan, &message, 0, &mut []), Err(JobFault::Rest(0)));
    assert_eq!(rt; pack(&plan, &[], &mut message), Ok(()));
    assert_eq!(rt; message, [0]);
}

#[test]
fn a_byte_fills_one_symbol_where_it_fits(rt: HostRuntime) {
    assert_eq!(rt; Spread::over(256).count, 1);
    assert_eq!(rt; Spread::over(257).limit, 256);
    let mut message = [9; 5];
    Spread::over(256).lay(&[1, 2, 255], &mut message);
    assert_eq!(rt; message, [1, 2, 255, 0, 0]);
    assert_eq!(rt; first_unfit(&[256], 256, 1), Some(0));
    assert_eq!(rt; first_rest(&[1, 0, 3], 1), Some(2));
}

#[test]
fn a_byte_fills_two_nibbles_high_one_first(rt: HostRuntime) {
    let mut message = [9; 5];
    let nibbles = Spread::over(16);
    nibbles.lay(&[0xAB, 0x0F], &mut message);
    assert_eq!(rt; message, [10, 11, 0, 15, 0]);
    assert_eq!(rt; nibbles.join(&[10, 11]), 0xAB);
}

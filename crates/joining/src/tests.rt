// Where packets are found, and what is refused of their headers.
use crate::finds::first_packet;
use crate::heading::Heading;
use binary::{ByteField, NibbleField};
use checks::fault::{Fault, Layer};
use code::plan::Counts;
use field::Field;
use packet::Job;
use std::process::Abort;
use std::test::Fail;

const PACKET: &[u8] =
    b"JB\x00\x00\x00\x02\x00\x02\x00\x01\x00\xFF\x00\x01\x00\x02\x00\x14\x00\x01\x01";

fn heading(data_count: usize, check_count: usize, row_len: usize, size: u32) -> Heading {
    Heading {
        counts: Counts {
            data_count,
            check_count,
            row_len,
        },
        size,
        job: Job {
            number: 1,
            length: 2,
        },
    }
}

fn refuses_plan<F: Field>(
    rt: &impl Abort,
    field: &F,
    heading: Heading,
    number: u16,
    place: usize,
) -> Result<(), Fail> {
    match heading.plan(field) {
        Ok(_) => Err(Fail::new("made, and not refused")),
        Err(fault) => {
            assert_eq!(rt;
                Fault::from(fault),
                Fault {
                    layer: Layer::Plan,
                    number,
                    place,
                }
            );
            Ok(())
        },
    }
}

#[test]
fn a_packet_is_found_behind_other_bytes(rt: HostRuntime) {
    assert_eq!(rt; first_packet(PACKET), Some(0));
    assert_eq!(rt;
        first_packet(
            b"\xFFJBJB\x00\x00\x00\x02\x00\x02\x00\x01\x00\xFF\x00\x01\x00\x02\x00\x14\x00\x01\x01JB",
        ),
        Some(3)
    );
}

#[test]
fn a_packet_that_is_cut_short_is_not_found(rt: HostRuntime) {
    assert_eq!(rt; first_packet(&PACKET[0..20]), None);
    assert_eq!(rt; first_packet(&[]), None);
}

#[test]
fn a_size_without_a_field_is_refused(rt: HostRuntime) -> Result<(), Fail> {
    match heading(2, 2, 1, 255).field() {
        Ok(_) => Err(Fail::new("there is no field of 255")),
        Err(fault) => {
            assert_eq!(rt;
                Fault::from(fault),
                Fault {
                    layer: Layer::Input,
                    number: 10,
                    place: 10,
                }
            );
            Ok(())
        },
    }
}

#[test]
fn counts_out_of_range_are_refused(rt: HostRuntime) -> Result<(), Fail> {
    refuses_plan(&rt, &ByteField {}, heading(65, 1, 1, 256), 1, 0)?;
    refuses_plan(&rt, &ByteField {}, heading(65535, 65535, 0, 256), 1, 0)?;
    refuses_plan(&rt, &ByteField {}, heading(64, 65, 0, 256), 1, 1)?;
    refuses_plan(&rt, &ByteField {}, heading(64, 64, 129, 256), 1, 2)?;
    refuses_plan(&rt, &NibbleField {}, heading(8, 9, 1, 16), 2, 16)
}

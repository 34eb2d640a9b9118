// Refusals of the cutter, the first that applies, and the packets of one small job.
use super::cut::{CutError, cut_input};
use checks::fault::{Fault, Layer};
use std::alloc::Global;
use std::process::Abort;
use std::test::Fail;

fn refuses(
    rt: &impl Abort,
    heap: Global,
    input: &[u8],
    layer: Layer,
    number: u16,
    place: usize,
) -> Result<(), Fail> {
    match cut_input(heap, input) {
        Ok(_) => Err(Fail::new("cut, and not refused")),
        Err(error) => {
            assert_eq!(rt;
                error,
                CutError::Refused(Fault {
                    layer,
                    number,
                    place,
                })
            );
            Ok(())
        },
    }
}

#[test]
fn a_short_input_is_refused(rt: HostRuntime) -> Result<(), Fail> {
    refuses(&rt, rt.alloc(), &[0, 2, 2], Layer::Input, 9, 3)
}

#[test]
fn a_field_that_there_is_not_is_refused(rt: HostRuntime) -> Result<(), Fail> {
    refuses(&rt, rt.alloc(), &[3, 0, 2, 1, 1], Layer::Input, 10, 0)
}

#[test]
fn no_data_packets_are_refused_before_no_rows(rt: HostRuntime) -> Result<(), Fail> {
    refuses(&rt, rt.alloc(), &[0, 0, 2, 0, 1], Layer::Plan, 1, 0)?;
    refuses(&rt, rt.alloc(), &[0, 65, 65, 1], Layer::Plan, 1, 0)?;
    refuses(&rt, rt.alloc(), &[1, 8, 9, 1], Layer::Plan, 2, 16)
}

#[test]
fn a_job_above_capacity_is_refused(rt: HostRuntime) -> Result<(), Fail> {
    refuses(&rt, rt.alloc(), &[0, 2, 2, 1, 1, 2, 3], Layer::Job, 15, 2)?;
    refuses(&rt, rt.alloc(), &[1, 3, 2, 1, 1, 2], Layer::Job, 15, 1)
}

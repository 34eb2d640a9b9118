// Packets as bytes.
use crate::fault::PacketFault;
use crate::{Job, Packet, open, write};
use code::plan::Plan;

const FIRST: &[u8] =
    b"JB\x00\x00\x00\x02\x00\x02\x00\x01\x00\xFF\x00\x01\x00\x02\x00\x14\x00\x01\x01";

#[test]
fn the_first_packet_opens_as_data(rt: HostRuntime) {
    let row = [1].as_slice();
    assert_eq!(rt; open(FIRST), Ok(Packet::Data { number: 0, row }));
}

#[test]
fn a_truncated_packet_is_refused_by_its_length(rt: HostRuntime) {
    assert_eq!(rt;
        open(b"JB\x00\x00\x00\x02\x00\x02\x00\x01\x00\xFF\x00\x01\x00\x02\x00\x14\x00\x01"),
        Err(PacketFault::Length(20))
    );
    assert_eq!(rt; open(b"JB"), Err(PacketFault::Length(2)));
}

#[test]
fn a_written_packet_opens_again(rt: HostRuntime) {
    let mut out = [9; 22];
    let row = [1].as_slice();
    let job = Job {
        number: 258,
        length: 3,
    };
    assert_eq!(rt;
        write(&Plan::new(), job, 1, &[], &mut out),
        Err(PacketFault::Count(1))
    );
    assert_eq!(rt; write(&Plan::new(), job, 1, &[1], &mut out), Ok(21));
    assert_eq!(rt; open(&out[..21]), Ok(Packet::Check { number: 1, row }));
    assert_eq!(rt; out[21], 9);
}

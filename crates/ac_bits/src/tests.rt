ghost use Rattle.std.specs.Prelude.{◌≤◌, ◌<◌, ◌^◌};

use super::*;

// The top `width` bits of 32.
fn front(number: u32, width: u32) -> u32
    requires { width ≤ 32 }
    ensures { result < 2 ^ width }
{
    (number as u64 >> (32 - width)) as u32
}

// 32 bits of each width from 0 to 32: the bytes were joined in Python.
const BYTES: [u8; 66] = [
    214, 169, 77, 42, 90, 93, 47, 75, 169, 114, 151, 20, 184, 82, 225, 165, 195, 165, 195, 210,
    225, 212, 184, 114, 151, 14, 105, 112, 229, 75, 135, 45, 46, 28, 186, 92, 57, 106, 92, 57, 109,
    46, 28, 183, 75, 135, 45, 233, 112, 229, 186, 151, 14, 91, 148, 184, 114, 220, 210, 225, 203,
    115, 165, 195, 150, 231,
];

#[test]
fn numbers_of_each_width_are_joined(rt: HostRuntime) {
    let mut sink = BitSink::new();
    for width in 0..33u32 {
        assert!(rt; sink.len() <= 30_688);
        sink.put(front(0xa5c3_96e7, width), width);
    }
    assert!(rt; sink.len() == 528);
    let mut out = [0; FRAME_BYTES];
    bits_laws();
    let count = sink.bytes(&mut out);
    assert_eq!(rt; count, 66);
    assert_eq!(rt; &out[..66], &BYTES[..]);
}

#[test]
fn numbers_of_each_width_come_back(rt: HostRuntime) {
    let mut source = BitSource::new(&BYTES, 528);
    for width in 0..33u32 {
        let before = source.left();
        let again = source.copy();
        assert_eq!(rt;
            source.take(width),
            Ok(front(0xa5c3_96e7, width)),
            "at {width}"
        );
        assert_eq!(rt; again.left(), before);
    }
    assert_eq!(rt; source.left(), 0);
}

#[test]
fn take_refuses_at_the_end_and_takes_nothing(rt: HostRuntime) {
    let mut source = BitSource::new(&[0xb7, 0x40], 11);
    assert_eq!(rt; source.take(12), Err(OutOfBits));
    assert_eq!(rt; source.left(), 11);
    assert_eq!(rt; source.take(11), Ok(0x5ba));
    assert_eq!(rt; source.take(1), Err(OutOfBits));
    assert_eq!(rt; source.take(0), Ok(0));
}

// What the drill asks, in its order.
use history::{Call, Question};
use segment::Sample;

// Out of range as condition 12 says.
const AUXILIARY_HIGH: Sample = Sample {
    vin: 0x0a01,
    vout: 0x0a02,
    iin: 0x0a03,
    vaux: 0x0a04,
    temperature: 0x0a05,
    pins: 0x1000,
};

// Nothing is out of range.
const QUIET: Sample = Sample {
    vin: 0x0b01,
    vout: 0x0b02,
    iin: 0x0b03,
    vaux: 0x0b04,
    temperature: 0x0b05,
    pins: 0x0000,
};

// Out of range as condition 4 says.
const WARNING_4: Sample = Sample {
    vin: 0x0c01,
    vout: 0x0c02,
    iin: 0x0c03,
    vaux: 0x0c04,
    temperature: 0x0c05,
    pins: 0x0010,
};

// Out of range as the conditions 4 and 5 say.
const WARNINGS_4_AND_5: Sample = Sample {
    vin: 0x0d01,
    vout: 0x0d02,
    iin: 0x0d03,
    vaux: 0x0d04,
    temperature: 0x0d05,
    pins: 0x0030,
};

// The calls on three stations, 10h, 12h and 14h.
pub const CALLS: &[Call<'static>] = &[
    // Who is there.
    Call::Ask(Question::Join),
    Call::Ask(Question::Address(0x12)),
    Call::Ask(Question::Address(0x16)),
    Call::Ask(Question::Line),
    Call::Ask(Question::Entries),
    // No mask covers condition 16.
    Call::Transfer(0x10, &[0xd8, 0xff, 0xff], 0),
    Call::Transfer(0x10, &[0xd8, 0x00, 0x00], 0),
    // A masked condition waits until the mask is taken away, and the black box then takes the frame of that moment.
    Call::Sample(0x14, AUXILIARY_HIGH),
    Call::Sample(0x14, QUIET),
    Call::Transfer(0x14, &[0xd8], 2),
    Call::Transfer(0x14, &[0xd8], 3),
    Call::Transfer(0x14, &[0xe0], 13),
    Call::Transfer(0x14, &[0xd8, 0x00, 0x00], 0),
    Call::Transfer(0x14, &[0xe0], 14),
    // Alert reads, in the order of addresses.
    Call::Sample(0x12, WARNING_4),
    Call::AlertRead(3),
    Call::AlertRead(2),
    Call::AlertRead(1),
    // A condition that is answered pulls no more; another one behind it does.
    Call::Sample(0x12, WARNING_4),
    Call::Sample(0x12, WARNINGS_4_AND_5),
    Call::AlertRead(2),
    Call::AlertRead(2),
    Call::AlertRead(2),
    Call::Ask(Question::Line),
    // A clear lets the same condition pull again, and arms the black box.
    Call::Transfer(0x12, &[0xe0], 13),
    Call::Transfer(0x12, &[0x03], 0),
    Call::Transfer(0x12, &[0xe0], 13),
    Call::Sample(0x12, WARNINGS_4_AND_5),
    Call::Transfer(0x12, &[0xe0], 13),
    // Transfers that the station refuses, and a clear with its packet error code.
    Call::Transfer(0x10, &[0x03, 0x00], 0),
    Call::Transfer(0x10, &[0x03, 0xa7], 0),
    Call::Transfer(0x10, &[0x99], 2),
    Call::Transfer(0x10, &[0xd8, 0x02, 0x00], 0),
    Call::Transfer(0x10, &[0xd8, 0x00], 0),
    Call::Transfer(0x10, &[0xd8, 0x00, 0x00, 0x00], 0),
    Call::Transfer(0x10, &[0xd8], 3),
    Call::Transfer(0x10, &[0xd8, 0x00, 0x00, 0xb0], 0),
    Call::Transfer(0x10, &[0xe0], 14),
    // What the segment refuses, in the order of its checks.
    Call::Sample(0x16, WARNING_4),
    Call::Transfer(0x16, &[0x03], 0),
    Call::Transfer(0x16, &[], 17),
    Call::Transfer(0x12, &[], 17),
    Call::Transfer(0x12, &[], 2),
    Call::Transfer(0x12, &[0xe0], 17),
    Call::Transfer(0x12, &[0xe0], 16),
    Call::Transfer(0x12, &[0x99], 17),
    Call::AlertRead(17),
    Call::AlertRead(0),
    // What is left is answered, and the line goes high.
    Call::AlertRead(2),
    Call::AlertRead(2),
    Call::AlertRead(2),
    Call::Ask(Question::Address(0x14)),
    Call::Ask(Question::Join),
    Call::Ask(Question::Line),
    Call::Ask(Question::Entries),
];

// The calls on a join of two stations at 10h.
pub const CLASH_CALLS: &[Call<'static>] = &[
    Call::Ask(Question::Join),
    Call::Ask(Question::Address(0x10)),
    Call::Ask(Question::Entries),
    Call::Sample(0x10, WARNING_4),
    Call::Transfer(0x10, &[0xd8], 3),
    Call::AlertRead(2),
    Call::AlertRead(2),
    Call::Ask(Question::Line),
    Call::Ask(Question::Entries),
];

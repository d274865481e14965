// The worked examples once more as the compiled program answers them.
use crate::worked_examples;

#[test]
fn codes(rt: HostRuntime) {
    let made = worked_examples();
    assert_eq!(rt; made.code_of_no_bytes, 0x00);
    assert_eq!(rt; made.code_of_clear, 0xA7);
}

#[test]
fn values(rt: HostRuntime) {
    let made = worked_examples();
    assert_eq!(rt; made.vin.ok(), Some(47_650_911));
    assert_eq!(rt; made.iin_of_zero.ok(), Some(-285_018));
    assert_eq!(rt; made.temperature.ok(), Some(-1_000_000));
}

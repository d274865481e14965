// The entry of a station: all that a segment shows of it.
mod operations;
mod readers;

use crate::alerts::AlertRecord;
use crate::boxes::BlackBox;
use crate::frames::Frame;
use smbus::Address;

// The station's address, its alert record, mask, current frame and black box.
#[derive(Clone, Copy, PartialEq, Eq, Debug)]
pub struct Entry {
    address: Address,
    alert: AlertRecord,
    mask: u16,
    frame: Frame,
    blackbox: BlackBox,
}

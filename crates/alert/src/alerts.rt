// The conditions that a station has latched, and those of them that it has answered.
ghost use Rattle.alert.specs.Bits.{Within};

mod operations;
mod readers;

use crate::conditions::Conditions;

// Latched: raised since the last clear. Answered: latched when the station last answered an alert read. By the type, no condition
// is answered that is not latched.
#[derive(Clone, Copy, PartialEq, Eq, Debug)]
pub struct AlertRecord {
    latched: Conditions,
    answered: Conditions,
    ghost within: { Within answered.bits latched.bits },
}

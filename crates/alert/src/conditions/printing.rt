// A set of conditions in print: five upper-case hexadecimal digits.
ghost use Rattle.std.specs.Prelude.{Some};
ghost use Rattle.alert.specs.Printing.{five_digits};

use crate::conditions::Conditions;
use std::fmt;

// Five digits, since a set has seventeen bits.
impl fmt::Display for Conditions {
    ghost output = { λ s. Some (five_digits s) };

    fn fmt<W: fmt::Write>(&self, f: &mut fmt::Formatter<W>) -> fmt::Result {
        write!(f, "{:05X}", self.bits)
    }
}

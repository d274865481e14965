// Why a byte is refused as an address.
ghost use Rattle.std.specs.Prelude.{◌≡◌, Some};
ghost use Rattle.smbus.specs.Refusals.{number_of, words_of};

use std::fmt;

// The one refusal of a byte as an address, with its number.
#[derive(Clone, Copy, PartialEq, Eq, Debug)]
pub enum AddressRefusal {
    // The byte is not one of 08h to 77h, or it is 0Ch.
    Unlawful = 11,
}

impl AddressRefusal {
    // The number that stands for the refusal.
    // A method and no From: its name says which number it is.
    pub fn number(self) -> u8
        ensures { result ≡ number_of self }
    {
        self as u8
    }
}

// A refusal in print says what an address is.
impl fmt::Display for AddressRefusal {
    ghost output = { λ x. Some (words_of x) };

    fn fmt<W: fmt::Write>(&self, f: &mut fmt::Formatter<W>) -> fmt::Result {
        match *self {
            AddressRefusal::Unlawful => f.write_str(
                "the address is not one of 08h to 77h without 0Ch",
            ),
        }
    }
}

// Why a conversion is refused.
ghost use Rattle.std.specs.Prelude.{◌≡◌, Some};
ghost use Rattle.direct.specs.Refusals.{number_of, conversion_words};

use std::fmt;

// The refusals, each by its number.
#[derive(Clone, Copy, PartialEq, Eq, Debug)]
pub enum ConversionRefusal {
    // The word is out of its quantity's range.
    Word = 8,
    // The quantity is measured over the sense resistor, and that is out of range.
    Resistor = 14,
    // The value is out of range, or the word that it has is.
    Value = 15,
}

impl ConversionRefusal {
    // The number that stands for the refusal.
    pub fn number(self) -> u8
        ensures { result ≡ number_of self }
    {
        self as u8
    }
}

// Its words, as they are printed.
impl fmt::Display for ConversionRefusal {
    ghost output = { λ x. Some (conversion_words x) };

    fn fmt<W: fmt::Write>(&self, f: &mut fmt::Formatter<W>) -> fmt::Result {
        f.write_str(match *self {
            ConversionRefusal::Word => "the word is out of range",
            ConversionRefusal::Resistor => "the sense resistor is not 100 to 10000 uOhm",
            ConversionRefusal::Value => "the value or its word is out of range",
        })
    }
}

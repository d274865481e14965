// What a line could have gone on with.
ghost use Rattle.std.specs.Prelude.{◌≡◌, Some};
ghost use Rattle.sheet_line.specs.Expected.{expected_text};

use std::fmt;

// What could have stood where a line stops to fit.
#[derive(Clone, Copy, PartialEq, Eq, Debug)]
pub enum Expected {
    Form,
    CardBefore,
    Blank,
    HexDigit,
    Kind,
    CurrentLimit,
    LimitName,
    Digit,
    DigitOrMinus,
    DigitPointOrEnd,
    PointOrEnd,
    DigitOrEnd,
    End,
}

impl Expected {
    // What was expected, in words.
    pub fn text(self) -> &'static [u8]
        ensures { result.now ≡ expected_text self }
    {
        self.words().as_bytes()
    }

    // The same, as it is printed.
    fn words(self) -> &'static str
        ensures { result.now ≡ expected_text self }
    {
        match self {
            Expected::Form => "a card line, a limit line, # or an empty line",
            Expected::CardBefore => "a card line before this limit",
            Expected::Blank => "a blank",
            Expected::HexDigit => "an upper-case hexadecimal digit",
            Expected::Kind => "LM25066, LM5064 or LM5056",
            Expected::CurrentLimit => "VDD, GND or VEE",
            Expected::LimitName => "VOUT_UV, VIN_OV, VIN_UV, IIN_OC, PIN_OP, OT_WARN or OT_FAULT",
            Expected::Digit => "a digit",
            Expected::DigitOrMinus => "a digit or -",
            Expected::DigitPointOrEnd => "a digit, a point or the end of the line",
            Expected::PointOrEnd => "a point or the end of the line",
            Expected::DigitOrEnd => "a digit or the end of the line",
            Expected::End => "the end of the line",
        }
    }
}

// Printed as it is named to whoever wrote the line.
impl fmt::Display for Expected {
    ghost output = { λ e. Some (expected_text e) };

    fn fmt<W: fmt::Write>(&self, f: &mut fmt::Formatter<W>) -> fmt::Result {
        f.write_str(self.words())
    }
}

// A card as the conversions see it: its kind, how its CL pin is tied, and its sense resistor.
ghost use Rattle.std.specs.Prelude.{Some};
ghost use Rattle.direct.specs.Names.{ReadsName, kind_name, current_limit_name};

use crate::names::UnknownName;
use std::fmt;
use std::str::FromStr;

// The kinds of feed monitors.
#[derive(Clone, Copy, PartialEq, Eq, Debug)]
pub enum Kind {
    Lm25066,
    Lm5064,
    Lm5056,
}

// Its name, as it is printed.
impl fmt::Display for Kind {
    ghost output = { λ x. Some (kind_name x) };

    fn fmt<W: fmt::Write>(&self, f: &mut fmt::Formatter<W>) -> fmt::Result {
        f.write_str(match *self {
            Kind::Lm25066 => "LM25066",
            Kind::Lm5064 => "LM5064",
            Kind::Lm5056 => "LM5056",
        })
    }
}

// The kind with that name, by a match beside the one that prints: a table for both would have to be searched.
impl FromStr for Kind {
    type Err = UnknownName;

    ghost from_str_gives = { ReadsName kind_name };

    fn from_str(text: &str) -> Result<Kind, UnknownName> {
        match text {
            "LM25066" => Ok(Kind::Lm25066),
            "LM5064" => Ok(Kind::Lm5064),
            "LM5056" => Ok(Kind::Lm5056),
            _ => Err(UnknownName),
        }
    }
}

// What the CL pin is tied to: VDD, or ground, which is VEE on LM5064.
#[derive(Clone, Copy, PartialEq, Eq, Debug)]
pub enum CurrentLimit {
    Vdd,
    Ground,
}

// Its name, as it is printed.
impl fmt::Display for CurrentLimit {
    ghost output = { λ x. Some (current_limit_name x) };

    fn fmt<W: fmt::Write>(&self, f: &mut fmt::Formatter<W>) -> fmt::Result {
        f.write_str(match *self {
            CurrentLimit::Vdd => "VDD",
            CurrentLimit::Ground => "GND",
        })
    }
}

// The setting with that name, by a match beside the one that prints: a table for both would have to be searched.
impl FromStr for CurrentLimit {
    type Err = UnknownName;

    ghost from_str_gives = { ReadsName current_limit_name };

    fn from_str(text: &str) -> Result<CurrentLimit, UnknownName> {
        match text {
            "VDD" => Ok(CurrentLimit::Vdd),
            "GND" => Ok(CurrentLimit::Ground),
            _ => Err(UnknownName),
        }
    }
}

// `resistor` is in µΩ, and any number: a conversion that uses it refuses one that is out of range.
#[derive(Clone, Copy, PartialEq, Eq, Debug)]
pub struct Card {
    pub kind: Kind,
    pub current_limit: CurrentLimit,
    pub resistor: u32,
}

// The quantities that a card measures, and the limit registers with the quantity of each.
ghost use Rattle.std.specs.Prelude.{◌≡◌, Some};
ghost use Rattle.direct.specs.Conversions.{least, in_range, unit, uses_resistor};
ghost use Rattle.direct.specs.Names.{ReadsName, quantity_name, register_name};
ghost use Rattle.direct.specs.Registers.{register_code, register_quantity};

use crate::names::UnknownName;
use std::fmt;
use std::str::FromStr;

// What a card measures.
#[derive(Clone, Copy, PartialEq, Eq, Debug)]
pub enum Quantity {
    Vin,
    Vout,
    Vaux,
    Iin,
    Pin,
    Temperature,
}

impl Quantity {
    // The least number that a lawful word of the quantity stands for.
    pub(crate) fn least_number(self) -> i64
        ensures { result ≡ least self }
    {
        match self {
            Quantity::Temperature => -4096,
            Quantity::Vin | Quantity::Vout | Quantity::Vaux | Quantity::Iin | Quantity::Pin => 0,
        }
    }

    // Whether a lawful word of the quantity can stand for the number.
    pub(crate) fn number_in_range(self, number: i64) -> bool
        ensures { result ≡ in_range self number }
    {
        (self.least_number()..=4095).contains(&number)
    }

    // How many of the value's units make one V, A, °C or W: values are in µV, µA, µ°C and mW.
    pub(crate) fn units(self) -> u64
        ensures { result ≡ unit self }
    {
        match self {
            Quantity::Pin => 1000,
            Quantity::Vin
            | Quantity::Vout
            | Quantity::Vaux
            | Quantity::Iin
            | Quantity::Temperature => 1_000_000,
        }
    }

    // Current and power are measured over the sense resistor; no other quantity looks at it.
    pub(crate) fn measured_over_resistor(self) -> bool
        ensures { result ≡ uses_resistor self }
    {
        match self {
            Quantity::Iin | Quantity::Pin => true,
            Quantity::Vin | Quantity::Vout | Quantity::Vaux | Quantity::Temperature => false,
        }
    }
}

// Its name, as it is printed.
impl fmt::Display for Quantity {
    ghost output = { λ x. Some (quantity_name x) };

    fn fmt<W: fmt::Write>(&self, f: &mut fmt::Formatter<W>) -> fmt::Result {
        f.write_str(match *self {
            Quantity::Vin => "VIN",
            Quantity::Vout => "VOUT",
            Quantity::Vaux => "VAUX",
            Quantity::Iin => "IIN",
            Quantity::Pin => "PIN",
            Quantity::Temperature => "TEMPERATURE",
        })
    }
}

// The quantity with that name, by a match beside the one that prints: a table for both would have to be searched.
impl FromStr for Quantity {
    type Err = UnknownName;

    ghost from_str_gives = { ReadsName quantity_name };

    fn from_str(text: &str) -> Result<Quantity, UnknownName> {
        match text {
            "VIN" => Ok(Quantity::Vin),
            "VOUT" => Ok(Quantity::Vout),
            "VAUX" => Ok(Quantity::Vaux),
            "IIN" => Ok(Quantity::Iin),
            "PIN" => Ok(Quantity::Pin),
            "TEMPERATURE" => Ok(Quantity::Temperature),
            _ => Err(UnknownName),
        }
    }
}

// A register that holds a warning or fault limit, by its command code.
#[derive(Clone, Copy, PartialEq, Eq, Debug)]
pub enum LimitRegister {
    VoutUv = 0x43,
    VinOv = 0x57,
    VinUv = 0x58,
    IinOc = 0xD3,
    PinOp = 0xD4,
    OtWarn = 0x51,
    OtFault = 0x4F,
}

impl LimitRegister {
    // The command code that reads and writes the register.
    pub fn code(self) -> u8
        ensures { result ≡ register_code self }
    {
        self as u8
    }

    // The quantity that the register's word is a value of.
    pub fn quantity(self) -> Quantity
        ensures { result ≡ register_quantity self }
    {
        match self {
            LimitRegister::VoutUv => Quantity::Vout,
            LimitRegister::VinOv | LimitRegister::VinUv => Quantity::Vin,
            LimitRegister::IinOc => Quantity::Iin,
            LimitRegister::PinOp => Quantity::Pin,
            LimitRegister::OtWarn | LimitRegister::OtFault => Quantity::Temperature,
        }
    }
}

// Its name, as it is printed.
impl fmt::Display for LimitRegister {
    ghost output = { λ x. Some (register_name x) };

    fn fmt<W: fmt::Write>(&self, f: &mut fmt::Formatter<W>) -> fmt::Result {
        f.write_str(match *self {
            LimitRegister::VoutUv => "VOUT_UV",
            LimitRegister::VinOv => "VIN_OV",
            LimitRegister::VinUv => "VIN_UV",
            LimitRegister::IinOc => "IIN_OC",
            LimitRegister::PinOp => "PIN_OP",
            LimitRegister::OtWarn => "OT_WARN",
            LimitRegister::OtFault => "OT_FAULT",
        })
    }
}

// The worked examples, each by the call that it is about.
ghost use Rattle.std.specs.Prelude.{◌≡◌, [], ◌∷◌, pos, negsuc, Ok};
ghost use Rattle.direct.specs.Conversions.{value_answer};
ghost use Rattle.direct.specs.declared.cards.CurrentLimit.TheVariants.{Vdd};
ghost use Rattle.direct.specs.declared.cards.Kind.TheVariants.{Lm5056};
ghost use Rattle.direct.specs.declared.quantities.Quantity.TheVariants.{Vin, Iin, Temperature};
ghost use Rattle.smbus.specs.PacketErrorCode.{code_of};
ghost use Rattle.examples.specs.Worked.{Worked, card};

use direct::{Card, ConversionRefusal, CurrentLimit, Kind, Quantity};

// What the calls answered.
#[derive(Clone, Copy)]
pub struct WorkedExamples {
    pub code_of_no_bytes: u8,
    pub code_of_clear: u8,
    pub vin: Result<i64, ConversionRefusal>,
    pub iin_of_zero: Result<i64, ConversionRefusal>,
    pub temperature: Result<i64, ConversionRefusal>,
}

// The card of the examples: an LM5056 with CL at VDD and 1 mΩ.
const CARD: Card = Card {
    kind: Kind::Lm5056,
    current_limit: CurrentLimit::Vdd,
    resistor: 1000,
};

// Makes the call of each example. Apart from the table, so that a wrong call is refused here.
fn answers() -> WorkedExamples
    ensures no_bytes { result.code_of_no_bytes ≡ code_of [] }
    ensures clear { result.code_of_clear ≡ code_of (0x20 ∷ 0x03 ∷ []) }
    ensures vin { result.vin ≡ value_answer (card Lm5056 Vdd 1000) Vin 0x0890 }
    ensures iin { result.iin_of_zero ≡ value_answer (card Lm5056 Vdd 1000) Iin 0x0000 }
    ensures temperature { result.temperature ≡ value_answer (card Lm5056 Vdd 1000) Temperature 0xFFF0 }
{
    WorkedExamples {
        code_of_no_bytes: smbus::code(&[]),
        code_of_clear: smbus::code(&[0x20, 0x03]),
        vin: CARD.value_of(Quantity::Vin, 0x0890),
        iin_of_zero: CARD.value_of(Quantity::Iin, 0x0000),
        temperature: CARD.value_of(Quantity::Temperature, 0xFFF0),
    }
}

// The worked examples: the table is proved of the definitions, and the calls answer what the table says.
pub fn worked_examples() -> WorkedExamples
    ensures table { Worked }
    ensures no_bytes { result.code_of_no_bytes ≡ 0x00 }
    ensures clear { result.code_of_clear ≡ 0xA7 }
    ensures vin { result.vin ≡ Ok (pos 47650911) }
    ensures iin { result.iin_of_zero ≡ Ok (negsuc 285017) }
    ensures temperature { result.temperature ≡ Ok (negsuc 999999) }
{
    answers()
}

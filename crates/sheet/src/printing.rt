// What is printed of a line.
ghost use Rattle.std.specs.Prelude.{◌≡◌, [], ◌∷◌, Some, IfOk, codes};
ghost use Rattle.sheet.specs.Parts.{in_turn};
ghost use Rattle.sheet.specs.Printing.{amount, card_line, limit_asked, limit_line, refusal_line, printed};

use crate::answers::{Answer, PlacedCard, Refusal, SetLimit};
use direct::{Card, Quantity};
use sheet_line::{Limit, Misfit, decimals_of};
use std::alloc::{AllocError, Global};
use std::fmt;
use text::{Fixed, Spaced};

// A value of a quantity, in units of the quantity's last decimal.
#[derive(Clone, Copy)]
struct Amount {
    quantity: Quantity,
    value: i64,
}

// A value is printed with the decimals of its quantity, and its unit.
impl fmt::Display for Amount {
    ghost output = { λ a. Some (amount a.quantity a.value) };

    fn fmt<W: fmt::Write>(&self, f: &mut fmt::Formatter<W>) -> fmt::Result {
        let value = self.value;
        let decimals = decimals_of(self.quantity);
        write!(f, "{}", Fixed { value, decimals })?;
        match self.quantity {
            Quantity::Vin | Quantity::Vout | Quantity::Vaux => f.write_str(" V"),
            Quantity::Iin => f.write_str(" A"),
            Quantity::Pin => f.write_str(" W"),
            Quantity::Temperature => f.write_str(" °C"),
        }
    }
}

// What is printed first of a limit: its register, and what was asked.
#[derive(Clone, Copy)]
struct Asked(Limit);

// A register is printed by its name and its code.
impl fmt::Display for Asked {
    ghost output = { λ a. Some (limit_asked a.0) };

    fn fmt<W: fmt::Write>(&self, f: &mut fmt::Formatter<W>) -> fmt::Result {
        let register = self.0.register;
        let code = register.code();
        let asked = Amount {
            quantity: register.quantity(),
            value: self.0.value,
        };
        write!(f, "limit {register} {code:02X}h: asked {asked}")
    }
}

// The line of a card that is set, with its end.
impl fmt::Display for PlacedCard {
    ghost output = { λ c. Some (card_line c.address c.card) };

    #[tactic(auto, using(text::proofs::Printing::hex_byte_text))]
    fn fmt<W: fmt::Write>(&self, f: &mut fmt::Formatter<W>) -> fmt::Result {
        let address = self.address;
        let Card {
            kind,
            current_limit,
            resistor,
        } = self.card;
        writeln!(f, "card {address:02X} {kind} {current_limit} {resistor}")
    }
}

// The line of a limit that is set, with its end.
impl fmt::Display for SetLimit {
    ghost output = { λ s. Some (limit_line s.limit s.setting) };

    fn fmt<W: fmt::Write>(&self, f: &mut fmt::Formatter<W>) -> fmt::Result {
        let asked = Asked(self.limit);
        let word = self.setting.word;
        let stands_for = Amount {
            quantity: self.limit.register.quantity(),
            value: self.setting.stands_for,
        };
        let bytes = self.setting.write.bytes();
        let sent = Spaced(&bytes);
        writeln!(
            f,
            "{asked}, word {word:04X}h, stands for {stands_for}, send{sent}"
        )
    }
}

// The refusal of the line with that number, from 1.
#[derive(Clone, Copy)]
struct Refused {
    number: usize,
    refusal: Refusal,
}

// The refusal's line, with its end.
impl fmt::Display for Refused {
    ghost output = { λ r. Some (refusal_line r.number r.refusal) };

    fn fmt<W: fmt::Write>(&self, f: &mut fmt::Formatter<W>) -> fmt::Result {
        let line = self.number;
        match self.refusal {
            Refusal::Card(refusal) => {
                let number = refusal.number();
                writeln!(f, "card refused {number}: {refusal}")
            }
            Refusal::Limit { limit, refusal } => {
                let asked = Asked(limit);
                let number = refusal.number();
                writeln!(f, "{asked}, refused {number}: {refusal}")
            }
            Refusal::Misfit(Misfit { place, expected }) => {
                let byte = place.saturating_add(1);
                writeln!(f, "line {line}, byte {byte}: expected {expected}")
            }
        }
    }
}

// The bytes of a line, which need not be UTF-8 and so have no Display, and its end.
fn with_end(heap: Global, line: &[u8]) -> Result<Vec<u8>, AllocError>
    ensures { IfOk result (λ v. v.items ≡ in_turn (line.now ∷ codes "\n" ∷ [])) }
{
    let mut text = Vec::new(heap);
    text.extend_from_slice(line)?;
    text.push(b'\n')?;
    Ok(text)
}

// The line that is printed of an answer, with its end; `number` is the line's number, from 1, and `line` its bytes.
pub fn print_answer(
    heap: Global,
    number: usize,
    line: &[u8],
    answer: Result<Answer, Refusal>,
) -> Result<Vec<u8>, AllocError>
    ensures { IfOk result (λ v. v.items ≡ printed number line.now answer) }
{
    let text = match answer {
        Ok(Answer::Note) => return with_end(heap, line),
        Ok(Answer::Card(placed)) => placed.to_string(heap)?,
        Ok(Answer::Limit(set)) => set.to_string(heap)?,
        Err(refusal) => Refused { number, refusal }.to_string(heap)?,
    };
    Ok(text.into_bytes())
}

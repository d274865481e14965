// A line of the sheet, taken apart.
ghost use Rattle.std.specs.Prelude.{◌≡◌};
ghost use Rattle.sheet_line.specs.Fitting.{Placed};
ghost use Rattle.sheet_line.specs.Forms.{settings, card_form, limit_form, form, line_of};

use crate::decimals::Decimals;
use crate::expected::Expected;
use crate::names::{Blank, Keyword, word_at};
use crate::numbers::{number_to_end, value_to_end};
use crate::pieces::{Stop, address_at};
use direct::{Card, CurrentLimit, Kind, LimitRegister};

// The most digits of a resistor. Nine digits fit 32 bits.
const RESISTOR_DIGITS: usize = 9;

// What a limit line asks; the value is in units of the last decimal: µV, µA, µ°C, or mW.
#[derive(Clone, Copy, PartialEq, Eq, Debug)]
pub struct Limit {
    pub register: LimitRegister,
    pub value: i64,
}

// What a line says.
#[derive(Clone, Copy, PartialEq, Eq, Debug)]
pub enum Line {
    // An empty line, or one that starts with #.
    Note,
    // The card at an address; whether the address is lawful is not looked at.
    Card { address: u8, card: Card },
    Limit(Limit),
}

// Where a line has none of the forms: the place, from 0, of its first byte that fits none, and what was expected there.
#[derive(Clone, Copy, PartialEq, Eq, Debug)]
pub struct Misfit {
    pub place: usize,
    pub expected: Expected,
}

// What follows the address in a card line.
fn settings_to_end(rest: &[u8]) -> Result<Card, Stop>
    ensures { result ≡ settings rest.now }
{
    let kind = word_at::<Kind>(rest)?;
    let blank = word_at::<Blank>(kind.rest)?;
    let current_limit = word_at::<CurrentLimit>(blank.rest)?;
    let blank = word_at::<Blank>(current_limit.rest)?;
    let resistor = number_to_end(blank.rest, RESISTOR_DIGITS)? as u32;
    Ok(Card {
        kind: kind.value,
        current_limit: current_limit.value,
        resistor,
    })
}

// What follows `card` and a blank.
fn card_to_end(rest: &[u8]) -> Result<Line, Stop>
    ensures { result ≡ card_form rest.now }
{
    let address = address_at(rest)?;
    let blank = word_at::<Blank>(address.rest)?;
    let card = settings_to_end(blank.rest)?;
    Ok(Line::Card {
        address: address.value,
        card,
    })
}

// What follows `limit` and a blank.
fn limit_to_end(rest: &[u8]) -> Result<Line, Stop>
    ensures { result ≡ limit_form rest.now }
{
    let register = word_at::<LimitRegister>(rest)?;
    let blank = word_at::<Blank>(register.rest)?;
    let register = register.value;
    let value = value_to_end(blank.rest, Decimals::of(register.quantity()))?;
    Ok(Line::Limit(Limit { register, value }))
}

// A line that is no note.
fn form_of(line: &[u8]) -> Result<Line, Stop>
    ensures { result ≡ form line.now }
{
    let keyword = word_at::<Keyword>(line)?;
    let blank = word_at::<Blank>(keyword.rest)?;
    match keyword.value {
        Keyword::Card => card_to_end(blank.rest),
        Keyword::Limit => limit_to_end(blank.rest),
    }
}

// The line taken apart by its definition; that the place is the first misfit's follows from that alone.
fn taken_apart(line: &[u8]) -> Result<Line, Misfit>
    ensures { result ≡ line_of line.now }
{
    if let [] | [b'#', ..] = line {
        return Ok(Line::Note);
    }
    form_of(line).map_err(|stop| Misfit {
        place: line.len().saturating_sub(stop.left),
        expected: stop.expected,
    })
}

// The line taken apart: it fits a form, or the answer has the place of its first byte that fits nothing.
// A function and no TryFrom: its two clauses have names of their own.
#[tactic(auto, using(crate::proofs::Lines::line_placed))]
pub fn read_line(line: &[u8]) -> Result<Line, Misfit>
    ensures value { result ≡ line_of line.now }
    ensures placed { Placed line.now result }
{
    taken_apart(line)
}

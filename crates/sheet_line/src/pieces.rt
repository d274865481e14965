// The pieces that a line is made of, each read from the front of what is left of the line.
ghost use Rattle.std.specs.Prelude.{◌≡◌, length, map};
ghost use Rattle.std.specs.Option.{option_map};
ghost use Rattle.sheet_line.specs.Pieces.{seen, one_of, after_byte, hex_at, address_at, named};

use crate::expected::Expected;
use text::{common_length, hex_digit};

// Where a line stops to fit: how many bytes of it are left there, and what it could have gone on with.
#[derive(Clone, Copy)]
pub struct Stop {
    pub left: usize,
    pub expected: Expected,
}

impl Stop {
    // The line stops to fit at the front of what is left of it.
    pub fn at(rest: &[u8], expected: Expected) -> Stop
        ensures { result ≡ record { left = length rest.now; expected = expected } }
    {
        Stop {
            left: rest.len(),
            expected,
        }
    }
}

// What was read, and the rest of the line.
// Handed on from piece to piece and no moving cursor: so each contract is one equation with the grammar's own function.
#[derive(Clone, Copy)]
pub struct Read<'a, T> {
    pub value: T,
    pub rest: &'a [u8],
}

// A word of a line, and what it means.
#[derive(Clone, Copy)]
pub struct Named<T> {
    pub text: &'static [u8],
    pub means: T,
}

// One of some words, none of which begins another. Where none stands, the nearest says where the line stops to fit.
pub fn one_of<'a, T: Copy>(
    rest: &'a [u8],
    words: &[Named<T>],
    expected: Expected,
) -> Result<Read<'a, T>, Stop>
    ensures { seen result ≡ one_of expected (map named words.now) rest.now }
{
    if let Some(word) = words.iter().find(|word| rest.starts_with(word.text)) {
        let value = word.means;
        let rest = &rest[word.text.len()..];
        return Ok(Read { value, rest });
    }
    let nearest = words
        .iter()
        .map(|word| common_length(rest, word.text))
        .max()
        .unwrap_or(0);
    Err(Stop::at(&rest[nearest..], expected))
}

// What follows a byte, where it stands at the front.
pub fn after_byte(rest: &[u8], byte: u8) -> Option<&[u8]>
    ensures { option_map (λ x. x.now) result ≡ after_byte byte rest.now }
{
    rest.strip_prefix(&[byte])
}

// A hexadecimal digit.
pub fn hex_at(rest: &[u8]) -> Result<Read<'_, u8>, Stop>
    ensures { seen result ≡ hex_at rest.now }
{
    let stop = Stop::at(rest, Expected::HexDigit);
    let [first, rest @ ..] = rest else {
        return Err(stop);
    };
    let value = hex_digit(*first).ok_or(stop)?;
    Ok(Read { value, rest })
}

// An address: two hexadecimal digits, the high one first.
// Not hex_byte, which does not say which of the two digits stops the line.
pub fn address_at(rest: &[u8]) -> Result<Read<'_, u8>, Stop>
    ensures { seen result ≡ address_at rest.now }
{
    let high = hex_at(rest)?;
    let low = hex_at(high.rest)?;
    let value = 16 * high.value + low.value;
    let rest = low.rest;
    Ok(Read { value, rest })
}

// The numbers that a line ends in.
ghost use Rattle.std.specs.Prelude.{◌≡◌, ◌^◌, ◌<◌, ◌≤◌, length, IfOk};
ghost use Rattle.sheet_line.specs.Numbers.{number_to_end, fraction_to_end, point_or_end, magnitude_to_end, value_to_end, after_digits, after_whole};

use crate::decimals::Decimals;
use crate::expected::Expected;
use crate::pieces::{Stop, after_byte};
use text::{LeadingNumber, leading_number};

// The most digits before the point.
const WHOLE_DIGITS: usize = 12;

// What may follow a run of digits that ends the line.
fn after_digits(count: usize, most: usize) -> Expected
    ensures { result ≡ after_digits most count }
{
    if count < most {
        Expected::DigitOrEnd
    } else {
        Expected::End
    }
}

// What may follow the digits before a point.
// Beside after_digits: one function for both would be handed both of its answers.
fn after_whole(count: usize) -> Expected
    ensures { result ≡ after_whole count }
{
    if count < WHOLE_DIGITS {
        Expected::DigitPointOrEnd
    } else {
        Expected::PointOrEnd
    }
}

// A number of 1 to `most` digits that ends the line.
pub fn number_to_end(rest: &[u8], most: usize) -> Result<u64, Stop>
    requires { most ≤ 9 }
    ensures value { result ≡ number_to_end most rest.now }
    ensures bound { IfOk result (λ n. (n < 10 ^ length rest.now) × (length rest.now ≤ most)) }
{
    let number = leading_number(rest, most);
    let after = &rest[number.length..];
    if number.length == 0 {
        return Err(Stop::at(rest, Expected::Digit));
    }
    if !after.is_empty() {
        return Err(Stop::at(after, after_digits(number.length, most)));
    }
    Ok(number.value)
}

// The digits after a point, 1 to as many as there are decimals: in units of the last one.
// Here and below decimals go beside the rest and in no struct with it: the rest moves on from call to call, they stay.
#[tactic(auto, using(crate::proofs::Scales::fraction_small))]
fn fraction_to_end(rest: &[u8], decimals: Decimals) -> Result<u64, Stop>
    ensures value { result ≡ fraction_to_end decimals.places rest.now }
    ensures bound { IfOk result (λ n. n < 10 ^ decimals.places) }
{
    let most = usize::from(decimals.places);
    let number = number_to_end(rest, most)?;
    Ok(number * 10u64.pow((most - rest.len()) as u32))
}

// What follows the digits before a point: the end of the line, or a point and the digits after it.
fn point_or_end(rest: &[u8], decimals: Decimals, whole: LeadingNumber) -> Result<u64, Stop>
    requires { whole.value < 10 ^ 12 }
    ensures value { result ≡ point_or_end decimals.places whole.length whole.value rest.now }
    ensures bound { IfOk result (λ n. n < 10 ^ 18) }
{
    let ones = whole.value * decimals.units();
    if rest.is_empty() {
        return Ok(ones);
    }
    let Some(digits) = after_byte(rest, b'.') else {
        return Err(Stop::at(rest, after_whole(whole.length)));
    };
    Ok(ones + fraction_to_end(digits, decimals)?)
}

// A number without a sign, in units of the last decimal; `first` is what may stand in the place of its first digit.
#[tactic(auto, using(crate::proofs::Scales::power_up))]
fn magnitude_to_end(rest: &[u8], decimals: Decimals, first: Expected) -> Result<u64, Stop>
    ensures value { result ≡ magnitude_to_end decimals.places first rest.now }
    ensures bound { IfOk result (λ n. n < 10 ^ 18) }
{
    let whole = leading_number(rest, WHOLE_DIGITS);
    if whole.length == 0 {
        return Err(Stop::at(rest, first));
    }
    point_or_end(&rest[whole.length..], decimals, whole)
}

// A number with or without a sign, in units of the last decimal. Below 10^18, so that the casts lose nothing.
pub fn value_to_end(rest: &[u8], decimals: Decimals) -> Result<i64, Stop>
    ensures { result ≡ value_to_end decimals.places rest.now }
{
    match after_byte(rest, b'-') {
        Some(digits) => Ok(-(magnitude_to_end(digits, decimals, Expected::Digit)? as i64)),
        None => Ok(magnitude_to_end(rest, decimals, Expected::DigitOrMinus)? as i64),
    }
}

// The straight line on which a card's words and values lie: step × word number = slope × value + offset.
ghost use Rattle.std.specs.Prelude.{◌≡◌, ◌^◌, ◌<◌, ◌≤◌, true, false, pos, ◌+ℤ◌, ◌-ℤ◌, ◌*ℤ◌, MatchResult, unsigned_abs};
ghost use Rattle.direct.specs.Conversions.{resistor_lawful, sense};
ghost use Rattle.direct.specs.Bounds.{Bounded};
ghost use Rattle.direct.specs.Nearest.{rounded};

use crate::cards::Card;
use crate::quantities::Quantity;
use crate::refusals::ConversionRefusal;

// The three numbers of a line, within the bounds that keep its values and word numbers to 64 bits.
// No `From` takes u64 to i64; within the bounds the casts below lose nothing.
#[derive(Clone, Copy)]
pub struct Line {
    pub slope: u64,
    pub offset: i64,
    pub step: u64,
    pub ghost bounded: { Bounded slope offset step },
}

// numerator / divisor, rounded to the nearest whole number, halves up.
#[tactic(auto, unfolding(crate::specs::Nearest::rounded))]
fn rounded_quotient(numerator: i64, divisor: u64) -> i64
    requires { (0 < divisor) × ((divisor < 2 ^ 60) × (unsigned_abs numerator < 2 ^ 61)) }
    ensures { result ≡ rounded numerator divisor }
{
    (2 * numerator + divisor as i64).div_euclid(2 * divisor as i64)
}

impl Line {
    // The value, rounded, at which the line has the word number.
    pub fn value_at(&self, number: i64) -> i64
        requires { unsigned_abs number ≤ 4096 }
        ensures { result ≡ rounded ((number *ℤ pos self.now.step) -ℤ self.now.offset) self.now.slope }
    {
        rounded_quotient(number * self.step as i64 - self.offset, self.slope)
    }

    // The word number, rounded, that the line has at the value.
    pub fn number_at(&self, value: i64) -> i64
        requires { unsigned_abs value ≤ 4000000000 }
        ensures { result ≡ rounded ((value *ℤ pos self.now.slope) +ℤ self.now.offset) self.now.step }
    {
        rounded_quotient(value * self.slope as i64 + self.offset, self.step)
    }
}

impl Card {
    ghost use Rattle.direct.specs.Lines.{LineOf};

    // The sense resistor in µΩ where the quantity is measured over it, and 1000 otherwise.
    fn sense_of(&self, quantity: Quantity) -> Result<u32, ConversionRefusal>
        ensures { MatchResult result (λ s. (resistor_lawful self.now quantity ≡ true) × (s ≡ sense self.now quantity)) (λ e. (resistor_lawful self.now quantity ≡ false) × (e ≡ ConversionRefusal.Resistor)) }
    {
        if !quantity.measured_over_resistor() {
            return Ok(1000);
        }
        if !(100..=10_000).contains(&self.resistor) {
            return Err(ConversionRefusal::Resistor);
        }
        Ok(self.resistor)
    }

    // The line of a quantity on a card. Refused where the quantity is measured over a resistor that is out of range.
    pub(crate) fn line_of(&self, quantity: Quantity) -> Result<Line, ConversionRefusal>
        ensures { MatchResult result (λ l. (resistor_lawful self.now quantity ≡ true) × LineOf self.now quantity l) (λ e. (resistor_lawful self.now quantity ≡ false) × (e ≡ ConversionRefusal.Resistor)) }
    {
        let sense = u64::from(self.sense_of(quantity)?);
        let coefficients = self.coefficients_of(quantity);
        let factor = quantity.units() * 1000;
        let scale = 10u64.pow(u32::from(coefficients.r.unsigned_abs()));
        Ok(Line {
            slope: u64::from(coefficients.m) * sense,
            offset: i64::from(coefficients.b) * factor as i64,
            step: factor * scale,
        })
    }
}

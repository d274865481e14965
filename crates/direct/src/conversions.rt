// The two conversions, and both of them one after the other.
ghost use Rattle.std.specs.Prelude.{◌≡◌, ℕ, ◌^◌, ◌<◌, IfOk, Ok, Err, MatchResult};
ghost use Rattle.direct.specs.Conversions.{askable, on, sense, word_number, value_numerator, value_divisor, word_numerator, word_divisor, value_answer, word_answer};
ghost use Rattle.direct.specs.Nearest.{Nearest};

use crate::cards::Card;
use crate::quantities::Quantity;
use crate::refusals::ConversionRefusal;

// The largest value, of either sign, that a word is looked for.
const LARGEST_VALUE: i64 = 4_000_000_000;

// Whether a word is looked for at all.
fn value_in_range(value: i64) -> bool
    ensures { result ≡ askable value }
{
    (-LARGEST_VALUE..=LARGEST_VALUE).contains(&value)
}

// What a word reads back as: the value that it stands for, and the word which that value has.
#[derive(Clone, Copy, PartialEq, Eq, Debug)]
pub struct ReadBack {
    pub value: i64,
    pub word: u16,
}

impl Card {
    // The value that a word stands for on a card, in µV, µA, µ°C, or mW for power.
    // Refuses a word that is out of its quantity's range, then a resistor that is out of range where the quantity is measured over it.
    pub fn value_of(&self, quantity: Quantity, word: u16) -> Result<i64, ConversionRefusal>
        ensures answer { result ≡ value_answer self.now quantity word }
        ensures nearest { IfOk result (λ x. Nearest (value_numerator quantity (on self.now quantity) (word_number word)) (value_divisor (on self.now quantity) (sense self.now quantity)) x) }
    {
        let number = i64::from(word.cast_signed());
        if !quantity.number_in_range(number) {
            return Err(ConversionRefusal::Word);
        }
        let line = self.line_of(quantity)?;
        Ok(line.value_at(number))
    }

    // The word that a value has on a card.
    // Refuses a resistor that is out of range where the quantity is measured over it, then a value beyond ±4,000,000,000 or whose word is out of range.
    // A value that some word stands for has that word.
    #[tactic(auto, using(crate::proofs::RoundTrip::word_back))]
    pub fn word_of(&self, quantity: Quantity, value: i64) -> Result<u16, ConversionRefusal>
        ensures answer { result ≡ word_answer self.now quantity value }
        ensures nearest { IfOk result (λ w. Nearest (word_numerator quantity (on self.now quantity) (sense self.now quantity) value) (word_divisor quantity (on self.now quantity)) (word_number w)) }
        ensures comes_back { (w : ℕ) → w < 2 ^ 16 → value_answer self.now quantity w ≡ Ok value → result ≡ Ok w }
    {
        let line = self.line_of(quantity)?;
        if !value_in_range(value) {
            return Err(ConversionRefusal::Value);
        }
        let number = line.number_at(value);
        if !quantity.number_in_range(number) {
            return Err(ConversionRefusal::Value);
        }
        // In range, the number is one of 16 bits.
        Ok((number as i16).cast_unsigned())
    }

    // Both conversions, one after the other: every lawful word comes back as itself.
    // Refuses where, and as, `value_of` does.
    pub fn read_back(&self, quantity: Quantity, word: u16) -> Result<ReadBack, ConversionRefusal>
        ensures comes_back { MatchResult result (λ b. (value_answer self.now quantity word ≡ Ok b.value) × (word_answer self.now quantity b.value ≡ Ok word) × (b.word ≡ word)) (λ e. value_answer self.now quantity word ≡ Err e) }
    {
        let value = self.value_of(quantity, word)?;
        let again = self.word_of(quantity, value)?;
        Ok(ReadBack { value, word: again })
    }
}

// Digits, and the numbers that they write.
ghost use Rattle.std.specs.Prelude.{◌≡◌, ℕ, ◌<◌, ◌≤◌, min, [], ◌∷◌, MatchOption, ◌≢◌, ◌^◌, Some, decimal, length, slice_index};
ghost use Rattle.std.specs.List.{prefix_len};
ghost use Rattle.text.specs.Digits.{decimal_digit, hex_digit, hex_byte, is_digit, digits_at_front, number_of, Leads};
ghost use Rattle.text.specs.Writing.{hex_text};

// The longest run of digits at the front of a text: how many there are, and the number that they write.
#[derive(Clone, Copy)]
pub struct LeadingNumber {
    pub length: usize,
    pub value: u64,
}

// The most digits that a number is read from: every number of as many fits 64 bits.
const MOST_DIGITS: usize = 19;

// The value of a byte that is a decimal digit; none at any other byte.
pub fn decimal_digit(byte: u8) -> Option<u8>
    ensures { result ≡ decimal_digit byte }
{
    match byte {
        b'0'..=b'9' => Some(byte - b'0'),
        _ => None,
    }
}

// The value of a byte that is a hexadecimal digit, its letters in upper case; none at any other byte.
// By hand: char::to_digit takes lower-case letters too.
pub fn hex_digit(byte: u8) -> Option<u8>
    ensures { result ≡ hex_digit byte }
{
    match byte {
        b'A'..=b'F' => Some(byte - b'A' + 10),
        _ => decimal_digit(byte),
    }
}

// The byte that two hexadecimal digits write, the high one first; none where one is not such a digit. It is exactly the byte
// that is written by these two digits, if one is, and the two digits of a byte are read as that byte.
#[tactic(auto, using(crate::proofs::Reading::hex_spells, crate::proofs::Reading::hex_reads))]
pub fn hex_byte(high: u8, low: u8) -> Option<u8>
    ensures value { result ≡ hex_byte high low }
    ensures spells { MatchOption result ((b : ℕ) → b < 256 → (high ∷ low ∷ []) ≢ hex_text b) (λ b. (high ∷ low ∷ []) ≡ hex_text b) }
    ensures reads { (b : ℕ) → b < 256 → hex_byte (slice_index (hex_text b) 0) (slice_index (hex_text b) 1) ≡ Some b }
{
    let high = hex_digit(high)?;
    let low = hex_digit(low)?;
    Some(16 * high + low)
}

// How many decimal digits stand at the front of `text`, counted up to `most`.
fn digits_at_front(text: &[u8], most: usize) -> usize
    ensures { result ≡ digits_at_front most text.now }
{
    text.iter()
        .take_while(|byte| byte.is_ascii_digit())
        .take(most)
        .count()
}

// The number that decimal digits write, of which there are 19 at most.
// By hand: the library reads numbers from str, and a line is bytes.
fn number_of(digits: &[u8]) -> u64
    requires few { length digits.now ≤ 19 }
    requires all { prefix_len is_digit digits.now ≡ length digits.now }
    ensures value { result ≡ number_of digits.now }
    ensures bound { result < 10 ^ length digits.now }
{
    let mut number = 0;
    for digit in digits {
        number = 10 * number + u64::from(*digit - b'0');
    }
    number
}

// The longest run of decimal digits at the front of `text`, of at most `most` and never more than 19 digits; the digits of
// a number are read as that number.
#[tactic(auto, using(crate::proofs::Reading::decimal_reads))]
pub fn leading_number(text: &[u8], most: usize) -> LeadingNumber
    ensures reads { (n : ℕ) → n < 2 ^ 64 → number_of (decimal n) ≡ n }
    ensures leads { Leads (min most 19) text.now result.length result.value }
{
    let length = digits_at_front(text, most.min(MOST_DIGITS));
    LeadingNumber {
        length,
        value: number_of(&text[..length]),
    }
}

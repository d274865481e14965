// Text appended to a Vec of bytes. Digits are written by hand: of a Vec that a format string is written to, no contract says what it holds where
// memory is wanting, and a text that is formatted apart wants memory of its own.
ghost use Rattle.std.specs.Prelude.{◌≡◌, ◌-◌, ◌<◌, ◌≤◌, ◌++◌, Some, decimal, slice_index, slice_range};
ghost use Rattle.text.specs.Digits.{hex_byte, number_of};
ghost use Rattle.text.specs.Writing.{Appends, hex_letter, hex_text, hex_word, minus, fixed, signed_fixed};

use std::alloc::AllocError;

// The digits of a number, at the end of a buffer.
#[derive(Clone, Copy)]
struct Digits {
    buffer: [u8; 20],
    start: usize,
}

// The byte of a hexadecimal digit, its letters in upper case.
fn hex_letter(digit: u8) -> u8
    requires { digit < 16 }
    ensures { result ≡ hex_letter digit }
{
    if digit < 10 {
        b'0' + digit
    } else {
        b'A' + (digit - 10)
    }
}

// The two hexadecimal digits of a byte.
fn hex_letters(byte: u8) -> [u8; 2]
    ensures value { result ≡ hex_text byte }
    ensures reads { hex_byte (slice_index (hex_text byte) 0) (slice_index (hex_text byte) 1) ≡ Some byte }
{
    [hex_letter(byte / 16), hex_letter(byte % 16)]
}

// The decimal digits of a number.
fn decimal_digits(n: u64) -> Digits
    ensures value { slice_range result.buffer result.start 20 ≡ decimal n }
    ensures within { result.start ≤ 20 }
    ensures reads { number_of (decimal n) ≡ n }
{
    let mut buffer = [0; 20];
    let mut start = 19;
    let mut left = n;
    buffer[start] = b'0' + (left % 10) as u8;
    while left >= 10 {
        left /= 10;
        start -= 1;
        buffer[start] = b'0' + (left % 10) as u8;
    }
    Digits { buffer, start }
}

// Appends `text`.
pub fn push_text(out: &mut Vec<u8>, text: &[u8]) -> Result<(), AllocError>
    ensures { Appends result out.old.items text.now out.new.items }
{
    out.extend_from_slice(text)
}

// Appends `byte` as two hexadecimal digits, which read back as the byte.
pub fn push_hex_byte(out: &mut Vec<u8>, byte: u8) -> Result<(), AllocError>
    ensures appends { Appends result out.old.items (hex_text byte) out.new.items }
    ensures reads { hex_byte (slice_index (hex_text byte) 0) (slice_index (hex_text byte) 1) ≡ Some byte }
{
    push_text(out, &hex_letters(byte))
}

// Appends `word` as four hexadecimal digits.
pub fn push_hex_word(out: &mut Vec<u8>, word: u16) -> Result<(), AllocError>
    ensures { Appends result out.old.items (hex_word word) out.new.items }
{
    let high = (word / 256) as u8;
    let low = (word % 256) as u8;
    push_text(
        out,
        &[
            hex_letter(high / 16),
            hex_letter(high % 16),
            hex_letter(low / 16),
            hex_letter(low % 16),
        ],
    )
}

// Appends `n` in decimal, without leading zeros; the digits read back as `n`.
pub fn push_decimal(out: &mut Vec<u8>, n: u64) -> Result<(), AllocError>
    ensures appends { Appends result out.old.items (decimal n) out.new.items }
    ensures reads { number_of (decimal n) ≡ n }
{
    let digits = decimal_digits(n);
    push_text(out, &digits.buffer[digits.start..])
}

// Appends `n` with its last `decimals` digits after a point.
fn push_scaled(out: &mut Vec<u8>, n: u64, decimals: u8) -> Result<(), AllocError>
    ensures { Appends result out.old.items (fixed decimals n) out.new.items }
{
    if decimals == 0 {
        push_decimal(out, n)?;
        return push_text(out, b".");
    }
    push_scaled(out, n / 10, decimals - 1)?;
    push_text(out, &[b'0' + (n % 10) as u8])
}

// Appends `-` where `below_zero` says so, and then `n` with its last `decimals` digits after a point.
fn push_with_sign(
    out: &mut Vec<u8>,
    below_zero: bool,
    n: u64,
    decimals: u8,
) -> Result<(), AllocError>
    ensures { Appends result out.old.items (minus below_zero ++ fixed decimals n) out.new.items }
{
    if below_zero {
        push_text(out, b"-")?;
    }
    push_scaled(out, n, decimals)
}

// Appends `value` in units of its last decimal: `-` below zero, the whole part, a point and as many digits as `decimals` says.
pub fn push_fixed(out: &mut Vec<u8>, value: i64, decimals: u8) -> Result<(), AllocError>
    ensures { Appends result out.old.items (signed_fixed decimals value) out.new.items }
{
    push_with_sign(out, value < 0, value.unsigned_abs(), decimals)
}

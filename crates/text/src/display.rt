// What is printed of a number and of bytes.
ghost use Rattle.std.specs.Prelude.{◌∷◌, Some};
ghost use Rattle.std.specs.Fmt.{WritesOnOk};
ghost use Rattle.text.specs.Writing.{fixed, hex_text, signed_fixed, spaced};

use std::fmt;

// A number in units of its last decimal: `-` below zero, the whole part, a point and as many digits as `decimals` says.
#[derive(Clone, Copy)]
pub struct Fixed {
    pub value: i64,
    pub decimals: u8,
}

// Bytes in upper-case hexadecimal, a blank before each.
#[derive(Clone, Copy)]
pub struct Spaced<'a>(pub &'a [u8]);

// Writes `units` with its last `decimals` digits after a point. A recursion, since the power of ten may not fit 64 bits.
fn write_scaled<W: fmt::Write>(f: &mut fmt::Formatter<W>, units: u64, decimals: u8) -> fmt::Result
    ensures { WritesOnOk W.write_str_gives f.old result (fixed decimals units) f.new }
{
    if decimals == 0 {
        return write!(f, "{units}.");
    }
    write_scaled(f, units / 10, decimals - 1)?;
    write!(f, "{}", units % 10)
}

// Printed with its sign, and as many digits after the point as it has decimals.
impl fmt::Display for Fixed {
    ghost output = { λ number. Some (signed_fixed number.decimals number.value) };

    fn fmt<W: fmt::Write>(&self, f: &mut fmt::Formatter<W>) -> fmt::Result {
        if self.value < 0 {
            f.write_str("-")?;
        }
        write_scaled(f, self.value.unsigned_abs(), self.decimals)
    }
}

// Writes a blank and a byte in upper-case hexadecimal.
#[tactic(auto, using(crate::proofs::Printing::hex_byte_text))]
fn write_byte<W: fmt::Write>(f: &mut fmt::Formatter<W>, byte: u8) -> fmt::Result
    ensures { WritesOnOk W.write_str_gives f.old result (32 ∷ hex_text byte) f.new }
{
    write!(f, " {byte:02X}")
}

// Printed byte by byte.
impl fmt::Display for Spaced<'_> {
    ghost output = { λ bytes. Some (spaced bytes.0.now) };

    fn fmt<W: fmt::Write>(&self, f: &mut fmt::Formatter<W>) -> fmt::Result {
        for byte in self.0 {
            write_byte(f, *byte)?;
        }
        Ok(())
    }
}

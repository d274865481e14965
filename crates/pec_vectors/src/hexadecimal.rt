// Bytes from upper-case hexadecimal text.
ghost use Rattle.std.specs.Prelude.{◌≡◌, IfOk, MatchOption};
ghost use Rattle.pec_vectors.specs.Hexadecimal.{Hexadecimal, spelled};

use std::alloc::{AllocError, Global};
use text::hex_byte;

// The bytes that the line spells, if it spells any.
pub fn message(heap: Global, line: &[u8]) -> Result<Option<Vec<u8>>, AllocError>
    ensures { IfOk result (λ o. MatchOption o (Hexadecimal line.now → ⊥) (λ v. line.now ≡ spelled v.items)) }
{
    let mut bytes = Vec::new(heap);
    for pair in line.chunks(2) {
        let [high, low] = pair else {
            return Ok(None);
        };
        let Some(byte) = hex_byte(*high, *low) else {
            return Ok(None);
        };
        bytes.push(byte)?;
    }
    Ok(Some(bytes))
}

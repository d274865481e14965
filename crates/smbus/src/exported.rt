// The packet error code that callers in C ask for; the crate `smbus_c` exports it to them.
ghost use Rattle.std.specs.Prelude.{◌≡◌, ℕ, List, [], ◌∷◌, ◌++◌, ◌≢◌};
ghost use Rattle.smbus.specs.PacketErrorCode.{OneByteChanged, code_from, code_of};

use crate::packet_error_code::continued;

// The code of the bytes: what `code` answers, for callers in C, and as fast as a routine of theirs.
pub fn smbus_code(bytes: &[u8]) -> u8
    ensures value { result ≡ code_of bytes.now }
    ensures zero { code_of (bytes.now ++ result ∷ []) ≡ 0 }
    ensures caught { (changed : List ℕ) → OneByteChanged bytes.now changed → code_of changed ≢ result }
{
    in_halves(0, bytes)
}

// What `continued` answers, by a loop over each half. It stands beside `continued` for the speed bar: of one loop the compiler makes
// code in which each call waits for the one before it, and a message takes 41 ns in place of 12 ns (docs/DECISIONS.md).
fn in_halves(running: u8, bytes: &[u8]) -> u8
    ensures value { result ≡ code_from running bytes.now }
    ensures zero { code_from running (bytes.now ++ result ∷ []) ≡ 0 }
    ensures caught { (changed : List ℕ) → OneByteChanged bytes.now changed → code_from running changed ≢ result }
{
    let (front, back) = bytes.split_at(bytes.len() / 2);
    continued(continued(running, front), back)
}

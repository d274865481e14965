// The packet error code for callers in C: a static library over `smbus`, which answers.
#![tactic(auto)]

ghost use Rattle.std.specs.Prelude.{◌≡◌, ℕ, List, [], ◌∷◌, ◌++◌, ◌≢◌};
ghost use Rattle.smbus.specs.PacketErrorCode.{OneByteChanged, code_of};

// The code of the bytes, which C passes as a pointer to them and their number.
#[unsafe(no_mangle)]
pub extern "C" fn smbus_code(bytes: &[u8]) -> u8
    ensures value { result ≡ code_of bytes.now }
    ensures zero { code_of (bytes.now ++ result ∷ []) ≡ 0 }
    ensures caught { (changed : List ℕ) → OneByteChanged bytes.now changed → code_of changed ≢ result }
{
    smbus::smbus_code(bytes)
}

// The packet error code of a message. The calls that answer a code state its value and its two laws in full, since one name for the
// three would hide from their callers what is promised.
ghost use Rattle.std.specs.Prelude.{◌≡◌, ℕ, true, ◌↔◌, List, [], ◌∷◌, ◌++◌, ◌≢◌};
ghost use Rattle.smbus.specs.PacketErrorCode.{EndsInCode, OneByteChanged, code_from, code_of, read_message, write_message};

use crate::address::Address;
use crate::table::byte_step;

// The code of the bytes.
pub fn code(bytes: &[u8]) -> u8
    ensures value { result ≡ code_of bytes.now }
    ensures zero { code_of (bytes.now ++ result ∷ []) ≡ 0 }
    ensures caught { (changed : List ℕ) → OneByteChanged bytes.now changed → code_of changed ≢ result }
{
    continued(0, bytes)
}

// The code after the bytes, going on from a running code.
pub fn continued(running: u8, bytes: &[u8]) -> u8
    ensures value { result ≡ code_from running bytes.now }
    ensures joined { (front : List ℕ) → code_of front ≡ running → result ≡ code_of (front ++ bytes.now) }
    ensures zero { code_from running (bytes.now ++ result ∷ []) ≡ 0 }
    ensures caught { (changed : List ℕ) → OneByteChanged bytes.now changed → code_from running changed ≢ result }
{
    let mut code = running;
    for byte in bytes {
        code = byte_step(code, *byte);
    }
    code
}

// The code of a write: over the address for a write, and what is written.
pub fn write_code(address: Address, written: &[u8]) -> u8
    ensures { result ≡ code_of (write_message address.byte written.now) }
{
    continued(byte_step(0, address.write_byte()), written)
}

// The code of a read: over the write that asks for it, the address for a read, and the reply.
pub fn read_code(address: Address, written: &[u8], reply: &[u8]) -> u8
    ensures { result ≡ code_of (read_message address.byte written.now reply.now) }
{
    let asked = write_code(address, written);
    continued(byte_step(asked, address.read_byte()), reply)
}

// Whether the last byte is the code of the bytes before it; of no bytes none is.
pub fn ends_in_code(packet: &[u8]) -> bool
    ensures test { (result ≡ true) ↔ EndsInCode packet.now }
    ensures caught { (changed : List ℕ) → OneByteChanged packet.now changed → result ≡ true → EndsInCode changed → ⊥ }
{
    let [front @ .., last] = packet else {
        return false;
    };
    code(front) == *last
}

// The forms of transfer that a command may have.

// How a command is sent, read or written.
#[derive(Clone, Copy, PartialEq, Eq, Debug)]
pub enum Form {
    // Sent alone.
    SendByte,
    // Read, one byte.
    ReadByte,
    // Read, two bytes.
    ReadWord,
    // Read or written, one byte.
    ByteRegister,
    // Read or written, two bytes.
    WordRegister,
    // Read, so many bytes, after their count.
    BlockRead(u8),
}

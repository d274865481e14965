// A frame: what a station shows of itself in twelve bytes.
ghost use Rattle.std.specs.Prelude.{◌≡◌};

// The twelve bytes that a station shows.
#[derive(Clone, Copy, PartialEq, Eq, Debug)]
pub struct Frame {
    bytes: [u8; 12],
}

impl Frame {
    // The twelve bytes.
    pub fn bytes(self) -> [u8; 12]
        ensures { result ≡ self.bytes }
    {
        self.bytes
    }
}

// The frame of six words, each low byte first.
impl From<[u16; 6]> for Frame {
    ghost use Rattle.alert.specs.Frames.{frame_bytes};

    ghost from_gives = { λ words frame. frame.bytes ≡ frame_bytes words };

    fn from(words: [u16; 6]) -> Frame {
        let mut bytes = [0; 12];
        bytes.copy_from_slice(words.map(u16::to_le_bytes).as_flattened());
        Frame { bytes }
    }
}

// What the host wrote, taken apart.
ghost use Rattle.std.specs.Prelude.{◌≡◌};
ghost use Rattle.request.specs.Requests.{data_of, taken_apart};

// The bytes that are written after the command, with the packet error code where one is written.
// Cases and no slice: a slice would give Request, and each call of a station that is handed one, a lifetime, and the judging would match the same counts.
#[derive(Clone, Copy, PartialEq, Eq, Debug)]
pub enum DataBytes {
    // The command alone.
    Nothing,
    // One byte.
    One(u8),
    // Two, in the order written.
    Two(u8, u8),
    // Three, in the order written.
    Three(u8, u8, u8),
    // Four or more: no form takes so many.
    Longer,
}

// The bytes after the command.
impl From<&[u8]> for DataBytes {
    ghost from_gives = { λ rest bytes. bytes ≡ data_of rest.now };

    fn from(rest: &[u8]) -> DataBytes {
        match rest {
            [] => DataBytes::Nothing,
            [first] => DataBytes::One(*first),
            [first, second] => DataBytes::Two(*first, *second),
            [first, second, third] => DataBytes::Three(*first, *second, *third),
            _ => DataBytes::Longer,
        }
    }
}

// The command, and the bytes after it.
#[derive(Clone, Copy, PartialEq, Eq, Debug)]
pub struct Request {
    // The first byte written.
    pub command: u8,
    // Those after it.
    pub data_bytes: DataBytes,
}

// The first byte is the command and the rest are its data; where nothing is written there is no request.
// An Option and no TryFrom: that nothing is written is a refusal of the segment, which is unknown here.
pub fn take_apart(written: &[u8]) -> Option<Request>
    ensures { result ≡ taken_apart written.now }
{
    let [command, rest @ ..] = written else {
        return None;
    };
    Some(Request {
        command: *command,
        data_bytes: DataBytes::from(rest),
    })
}

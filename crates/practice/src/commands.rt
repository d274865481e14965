// The commands of the station for practice: the three that every station serves, and no other.
ghost use Rattle.std.specs.Prelude.{◌≡◌, Some};
ghost use Rattle.segment.specs.Requesting.{common_form};
ghost use Rattle.practice.specs.Commands.{Named, number_of};

use alert::Conditions;
use request::Form;
use segment::StationFault;

// How many bytes the black box has.
pub const BOX_COUNT: u8 = 12;

// What the station for practice is asked to do.
#[derive(Clone, Copy, PartialEq, Eq, Debug)]
pub enum Command {
    // Empties both sets, and arms the black box again.
    Clear = 0x03,
    // Reads or writes the mask word.
    Mask = 0xd8,
    // Reads the black box.
    BlackBox = 0xe0,
}

impl Command {
    // The form of the command.
    pub fn form(self) -> Form
        ensures { Some result ≡ common_form (number_of self) }
    {
        match self {
            Command::Clear => Form::SendByte,
            Command::Mask => Form::WordRegister,
            Command::BlackBox => Form::BlockRead(BOX_COUNT),
        }
    }

    // The byte that stands for the command.
    pub fn number(self) -> u8
        ensures { result ≡ number_of self }
    {
        self as u8
    }
}

// A byte that stands for none of the three is an unknown command, which raises communication, memory or logic (condition 1).
// The bytes stand here again, since a pattern takes no cast of a case.
impl TryFrom<u8> for Command {
    type Error = StationFault;

    ghost try_from_gives = { Named };

    fn try_from(number: u8) -> Result<Command, StationFault> {
        match number {
            0x03 => Ok(Command::Clear),
            0xd8 => Ok(Command::Mask),
            0xe0 => Ok(Command::BlackBox),
            _ => Err(StationFault::UnknownCommand(Conditions::communication())),
        }
    }
}

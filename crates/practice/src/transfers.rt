// A transfer to the station for practice: the three commands that every station serves, and no other.
ghost use Rattle.std.specs.Prelude.{◌≡◌, ◌∷◌, length};
ghost use Rattle.alert.specs.Entries.{address_of};
ghost use Rattle.request.specs.Replies.{replied};
ghost use Rattle.segment.specs.Requesting.{common_body};
ghost use Rattle.practice.specs.Commands.{number_of};
ghost use Rattle.practice.specs.Practice.{Concluded, Served, asked, body_size};

use crate::commands::{BOX_COUNT, Command};
use alert::{Conditions, Entry};
use request::{Access, Request, judge, write_reply};
use segment::{Reply, StationFault};

// Does what the request asks for, or refuses it; neither latches the refusal nor applies the box rule.
// On the entry alone, so that what the station was built from is seen to stay.
pub fn serve(entry: &mut Entry, request: Request, reply: &mut [u8]) -> Result<Reply, StationFault>
    ensures { Served (asked request (address_of entry.old) (length reply.old)) request.command entry.old reply.old result reply.new entry.new }
{
    let command = Command::try_from(request.command)?;
    match judge(command.form(), entry.address(), request, reply.len())? {
        Access::Send => entry.clear(),
        Access::Read => write_body(entry, command, reply),
        Access::WriteWord(word) => entry.write_mask(word),
        Access::WriteByte(_) => {}
    }
    Ok((reply.len(), Conditions::empty()))
}

// Ends a transfer: a refusal latches the set that it raises, and the box rule is applied.
pub fn conclude(entry: &mut Entry, answer: Result<Reply, StationFault>)
    ensures { Concluded answer entry.old entry.new }
{
    if let Err(fault) = answer {
        entry.raise(fault.raised());
    }
    entry.apply_box_rule();
}

// Replies with the mask word low byte first, or else with the count and the bytes of the black box.
// On the entry alone, as `serve`.
fn write_body(entry: &Entry, command: Command, reply: &mut [u8])
    ensures size { length (common_body (number_of command) entry.now) ≡ body_size (number_of command) }
    ensures value { reply.new ≡ replied (address_of entry.now) (number_of command) (common_body (number_of command) entry.now) reply.old }
{
    let number = command.number();
    match command {
        Command::Mask => {
            write_reply(entry.address(), number, &entry.mask().to_le_bytes(), reply);
        }
        Command::Clear | Command::BlackBox => {
            write_reply(entry.address(), number, &block(entry.box_bytes()), reply);
        }
    }
}

// A block of twelve bytes, after their count.
fn block(bytes: [u8; 12]) -> [u8; 13]
    ensures { result ≡ 12 ∷ bytes }
{
    let mut block = [0; 13];
    block[0] = BOX_COUNT;
    block[1..].copy_from_slice(&bytes);
    block
}

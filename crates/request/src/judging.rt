// What a transfer asks for, or why it is refused.
ghost use Rattle.std.specs.Prelude.{◌≡◌, ◌∷◌, ◌≤◌, ◌↔◌, Err};
ghost use Rattle.smbus.specs.PacketErrorCode.{code_of, write_message};
ghost use Rattle.request.specs.Forms.{Fits};
ghost use Rattle.request.specs.Judging.{HasWrongCode, MeansWritten, before_last, judged, read, unless_wanted, word, written_in};
ghost use Rattle.request.specs.declared.judging.Access.TheVariants.{WriteWord};

use crate::forms::Form;
use crate::refusals::RequestRefusal;
use crate::requests::{DataBytes, Request};
use smbus::{Address, write_code};

// What a transfer that fits asks for.
#[derive(Clone, Copy, PartialEq, Eq, Debug)]
pub enum Access {
    // The command itself, without data.
    Send,
    // The reply of the command.
    Read,
    // A write of this byte.
    WriteByte(u8),
    // A write of this word.
    WriteWord(u16),
}

// What the request asks for in its form: refused by its counts first, then by a written code.
#[tactic(auto, using(crate::proofs::Reasons::counts_judged, crate::proofs::Reasons::code_judged))]
pub fn judge(
    form: Form,
    address: Address,
    request: Request,
    wanted: usize,
) -> Result<Access, RequestRefusal>
    ensures value { result ≡ judged form address.byte request wanted }
    ensures counts { (result ≡ Err RequestRefusal.Counts) ↔ (Fits form request.data_bytes wanted → ⊥) }
    ensures code { (result ≡ Err RequestRefusal.Code) ↔ (Fits form request.data_bytes wanted × HasWrongCode form address.byte request) }
{
    let transfer = Transfer {
        address,
        request,
        wanted,
    };
    transfer.judge(form)
}

// A request at an address, with so many bytes wanted.
#[derive(Clone, Copy)]
struct Transfer {
    address: Address,
    request: Request,
    wanted: usize,
}

impl Transfer {
    // The judgement by the form.
    fn judge(self, form: Form) -> Result<Access, RequestRefusal>
        ensures { result ≡ judged form self.address.byte self.request self.wanted }
    {
        match (form, self.request.data_bytes) {
            (Form::ReadByte, _) | (Form::ByteRegister, DataBytes::Nothing) => self.judge_read(1),
            (Form::ReadWord, _) | (Form::WordRegister, DataBytes::Nothing) => self.judge_read(2),
            (Form::BlockRead(count), _) => self.judge_read(usize::from(count) + 1),
            (Form::SendByte | Form::ByteRegister | Form::WordRegister, _) => self.judge_write(form),
        }
    }

    // A read of a reply of so many bytes.
    fn judge_read(self, size: usize) -> Result<Access, RequestRefusal>
        requires { size ≤ 256 }
        ensures { result ≡ read size self.request.data_bytes self.wanted }
    {
        match self.request.data_bytes {
            DataBytes::Nothing if self.wanted == size || self.wanted == size + 1 => {
                Ok(Access::Read)
            }
            _ => Err(RequestRefusal::Counts),
        }
    }

    // A send or a write, with which nothing is wanted, and whose code, where one is written, is that of the bytes before it.
    fn judge_write(self, form: Form) -> Result<Access, RequestRefusal>
        ensures { result ≡ unless_wanted self.wanted (written_in form self.address.byte self.request.command self.request.data_bytes) }
    {
        if self.wanted != 0 {
            return Err(RequestRefusal::Counts);
        }
        let (access, code) = written(form, self.request.data_bytes).ok_or(RequestRefusal::Counts)?;
        match code {
            Some(code) if code != self.code_before_last() => Err(RequestRefusal::Code),
            _ => Ok(access),
        }
    }

    // The packet error code of the written bytes before the last.
    fn code_before_last(self) -> u8
        ensures { result ≡ code_of (write_message self.address.byte (self.request.command ∷ before_last self.request.data_bytes)) }
    {
        let command = self.request.command;
        match self.request.data_bytes {
            DataBytes::Two(byte, _) => write_code(self.address, &[command, byte]),
            DataBytes::Three(low, high, _) => write_code(self.address, &[command, low, high]),
            _ => write_code(self.address, &[command]),
        }
    }
}

// What data bytes send or write in a form, where they do, and the code that ends them, where one does.
fn written(form: Form, data_bytes: DataBytes) -> Option<(Access, Option<u8>)>
    ensures { MeansWritten form data_bytes result }
{
    match (form, data_bytes) {
        (Form::SendByte, DataBytes::Nothing) => Some((Access::Send, None)),
        (Form::SendByte, DataBytes::One(code)) => Some((Access::Send, Some(code))),
        (Form::ByteRegister, DataBytes::One(byte)) => Some((Access::WriteByte(byte), None)),
        (Form::ByteRegister, DataBytes::Two(byte, code)) => {
            Some((Access::WriteByte(byte), Some(code)))
        }
        (Form::WordRegister, DataBytes::Two(low, high)) => Some((write_word(low, high), None)),
        (Form::WordRegister, DataBytes::Three(low, high, code)) => {
            Some((write_word(low, high), Some(code)))
        }
        _ => None,
    }
}

// A write of a word, of which the low byte comes first.
fn write_word(low: u8, high: u8) -> Access
    ensures { result ≡ WriteWord (word low high) }
{
    Access::WriteWord(u16::from_le_bytes([low, high]))
}

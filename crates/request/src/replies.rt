// The reply to a read.
ghost use Rattle.std.specs.Prelude.{◌≡◌, length};
ghost use Rattle.request.specs.Forms.{is_whole};
ghost use Rattle.request.specs.Replies.{replied};

use smbus::{Address, read_code};

// Writes the body into a reply buffer of its length, or of one byte more, which then ends in the code of the read; says whether the buffer is so long.
// A bool and no Result: after a judgement the length fits, and a caller would have to answer a case that cannot be.
pub fn write_reply(address: Address, command: u8, body: &[u8], reply: &mut [u8]) -> bool
    ensures fits { result ≡ is_whole (length body.now) (length reply.old) }
    ensures value { reply.new ≡ replied address.byte command body.now reply.old }
{
    let Some((start, end)) = reply.split_at_mut_checked(body.len()) else {
        return false;
    };
    match end {
        [] => {}
        [last] => *last = read_code(address, &[command], body),
        _ => return false,
    }
    start.copy_from_slice(body);
    true
}

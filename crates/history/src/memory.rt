// Memory for a history, and what is written into it.
ghost use Rattle.std.specs.Prelude.{◌≡◌, length, IfOk};
ghost use Rattle.history.specs.Memory.{Blank, Roomy};
ghost use Rattle.history.specs.Recorded.{moment_of, shown_now};

use crate::moments::Moment;
use alert::{Conditions, Entry, Frame};
use segment::Segment;
use smbus::Address;
use std::alloc::{AllocError, Global};

// An entry to fill memory with.
fn blank_entry() -> Entry {
    let address = Address::try_from(0x08).unwrap();
    Entry::new(address, Conditions::empty(), 0, Frame::from([0; 6]))
}

// Memory for a moment: places for so many entries, and for the reply buffer.
pub fn blank_moment(heap: Global, stations: usize, reply: &[u8]) -> Result<Moment, AllocError>
    ensures { IfOk result (Roomy stations (length reply.now)) }
{
    let entries = vec![in heap; blank_entry(); stations]?;
    let reply = reply.to_vec(heap)?;
    Ok(Moment {
        entries,
        low: false,
        reply,
    })
}

// Memory for so many moments.
pub fn blank_moments(
    heap: Global,
    count: usize,
    stations: usize,
    reply: &[u8],
) -> Result<Vec<Moment>, AllocError>
    ensures { IfOk result (λ v. Blank count stations (length reply.now) v.items) }
{
    let mut moments = Vec::new(heap);
    for _index in 0..count {
        moments.push(blank_moment(heap, stations, reply)?)?;
    }
    Ok(moments)
}

// Writes down what shows, into memory that has places for it.
// That it has them is no invariant of a moment, since it relates the moment to one segment.
pub fn show<S: Segment>(segment: &S, reply: &[u8], moment: &mut Moment)
    requires { Roomy (length (S.Segment.entries segment.now)) (length reply.now) moment.old }
    ensures { moment_of moment.new ≡ shown_now (S.Segment.entries segment.now) reply.now }
{
    // As many are written as there are stations: the number is known.
    let _ = segment.write_entries(moment.entries.as_mut_slice());
    moment.low = segment.line_is_low();
    moment.reply.copy_from_slice(reply);
}

// A sample, as the station for practice takes it: any sample will do.
ghost use Rattle.std.specs.Prelude.{◌≡◌};
ghost use Rattle.alert.specs.Frames.{frame_bytes};
ghost use Rattle.practice.specs.Practice.{Taken, sample_words};

use alert::{Conditions, Entry, Frame};
use segment::Sample;

// Latches the pins of a sample and makes its words the frame; answers the set of the pins.
pub fn take(entry: &mut Entry, sample: Sample) -> Conditions
    ensures { Taken sample result entry.old entry.new }
{
    let set = Conditions::from(sample.pins);
    entry.raise(set);
    entry.show(frame_of(sample));
    entry.apply_box_rule();
    set
}

// The frame of a sample: its five words and its pins. A function, since both types are of other crates, where alone they could have a From.
fn frame_of(sample: Sample) -> Frame
    ensures { result.bytes ≡ frame_bytes (sample_words sample) }
{
    Frame::from([
        sample.vin,
        sample.vout,
        sample.iin,
        sample.vaux,
        sample.temperature,
        sample.pins,
    ])
}

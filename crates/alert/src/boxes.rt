// The black box of a station: the frame of its first pull since it was armed.
ghost use Rattle.std.specs.Prelude.{◌≡◌};
ghost use Rattle.alert.specs.Boxes.{armed_again, is_armed, new_box, noted};

use crate::frames::Frame;

// Whether the next pull is taken, or one was taken since the last arming.
#[derive(Clone, Copy, PartialEq, Eq, Debug)]
pub enum BoxState {
    Armed,
    Taken,
}

// Twelve bytes, and beside them whether the box is armed. The bytes are no part of a state: a box that is armed again keeps them
// until its station pulls, so that both states have them.
#[derive(Clone, Copy, PartialEq, Eq, Debug)]
pub struct BlackBox {
    state: BoxState,
    bytes: [u8; 12],
}

impl BlackBox {
    // An armed box of zero bytes.
    pub fn new() -> BlackBox
        ensures { result ≡ new_box }
    {
        BlackBox {
            state: BoxState::Armed,
            bytes: [0; 12],
        }
    }

    // The bytes of the box: those of the frame that it took last, or zeros.
    pub fn bytes(&self) -> [u8; 12]
        ensures { result ≡ self.now.bytes }
    {
        self.bytes
    }

    // Whether the next pull is taken.
    pub fn is_armed(&self) -> bool
        ensures { result ≡ is_armed self.now.state }
    {
        self.state == BoxState::Armed
    }

    // Arms the box; its bytes stay until a pull is taken.
    pub fn arm(&mut self)
        ensures { self.new ≡ armed_again self.old }
    {
        self.state = BoxState::Armed;
    }

    // The box rule: an armed box takes the frame of a station that pulls, and is armed no more.
    // The project has the rule as one match of the state with what the station does. So a test and no Option of the frame: only the arm that
    // changes the box looks at the frame.
    pub fn note(&mut self, pulling: bool, frame: Frame)
        ensures { self.new ≡ noted self.old pulling frame.bytes }
    {
        match (self.state, pulling) {
            (BoxState::Armed, true) => {
                *self = BlackBox {
                    state: BoxState::Taken,
                    bytes: frame.bytes(),
                };
            }
            (BoxState::Armed, false) | (BoxState::Taken, _) => {}
        }
    }
}

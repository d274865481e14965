// What an entry shows, and whether its station pulls.
ghost use Rattle.std.specs.Prelude.{◌≡◌};
ghost use Rattle.alert.specs.Boxes.{is_armed};
ghost use Rattle.alert.specs.Entries.{pulls};

use crate::conditions::Conditions;
use crate::entries::Entry;
use crate::frames::Frame;
use smbus::Address;

impl Entry {
    // The address of the station.
    pub fn address(&self) -> Address
        ensures { result ≡ self.now.address }
    {
        self.address
    }

    // The conditions that the station has latched.
    pub fn latched(&self) -> Conditions
        ensures { result ≡ self.now.alert.latched }
    {
        self.alert.latched()
    }

    // The conditions that the station has answered.
    pub fn answered(&self) -> Conditions
        ensures { result ≡ self.now.alert.answered }
    {
        self.alert.answered()
    }

    // The conditions 0 to 15, by bit, for which the station does not pull.
    pub fn mask(&self) -> u16
        ensures { result ≡ self.now.mask }
    {
        self.mask
    }

    // The current frame.
    pub fn frame(&self) -> Frame
        ensures { result ≡ self.now.frame }
    {
        self.frame
    }

    // The bytes of the black box.
    pub fn box_bytes(&self) -> [u8; 12]
        ensures { result ≡ self.now.blackbox.bytes }
    {
        self.blackbox.bytes()
    }

    // Whether the black box takes the next pull.
    pub fn is_armed(&self) -> bool
        ensures { result ≡ is_armed self.now.blackbox.state }
    {
        self.blackbox.is_armed()
    }

    // Whether the station pulls the alert line.
    pub fn pulls(&self) -> bool
        ensures { result ≡ pulls self.now }
    {
        self.alert.asserts(self.mask)
    }
}

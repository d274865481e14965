// How an entry is built, and what raising, answering, clearing and the box rule do to it.
ghost use Rattle.std.specs.Prelude.{◌≡◌};
ghost use Rattle.alert.specs.Alerts.{AfterAnswer, AfterClear, AfterRaise};
ghost use Rattle.alert.specs.Boxes.{armed_again, noted};
ghost use Rattle.alert.specs.Entries.{AsBuilt, pulls, with_alert, with_box, with_frame, with_mask};

use crate::alerts::AlertRecord;
use crate::boxes::BlackBox;
use crate::conditions::Conditions;
use crate::entries::Entry;
use crate::frames::Frame;
use smbus::Address;

impl Entry {
    // The entry of a station as it is built: nothing answered, the box armed and zero, and then the box rule.
    pub fn new(address: Address, first: Conditions, mask: u16, frame: Frame) -> Entry
        ensures address { result.address ≡ address }
        ensures latched { result.alert.latched ≡ first }
        ensures mask { result.mask ≡ mask }
        ensures frame { result.frame ≡ frame }
        ensures built { AsBuilt result }
    {
        let alert = AlertRecord::new(first);
        let mut entry = Entry {
            address,
            alert,
            mask,
            frame,
            blackbox: BlackBox::new(),
        };
        entry.apply_box_rule();
        entry
    }

    // Latches each condition of the set.
    pub fn raise(&mut self, set: Conditions)
        ensures sets { AfterRaise set self.old.alert self.new.alert }
        ensures rest { self.new ≡ with_alert self.old self.new.alert }
    {
        self.alert.raise(set);
    }

    // Makes each latched condition an answered one.
    pub fn answer(&mut self)
        ensures sets { AfterAnswer self.old.alert self.new.alert }
        ensures rest { self.new ≡ with_alert self.old self.new.alert }
    {
        self.alert.answer();
    }

    // Empties both sets and arms the box.
    pub fn clear(&mut self)
        ensures sets { AfterClear self.new.alert }
        ensures rest { self.new ≡ with_box (with_alert self.old self.new.alert) (armed_again self.old.blackbox) }
    {
        self.alert.clear();
        self.blackbox.arm();
    }

    // Makes a word the mask.
    pub fn write_mask(&mut self, word: u16)
        ensures { self.new ≡ with_mask self.old word }
    {
        self.mask = word;
    }

    // Makes a frame the current one.
    pub fn show(&mut self, frame: Frame)
        ensures { self.new ≡ with_frame self.old frame }
    {
        self.frame = frame;
    }

    // The box rule, which ends every call: armed and pulling, the box takes the current frame and is armed no more.
    pub fn apply_box_rule(&mut self)
        ensures { self.new ≡ with_box self.old (noted self.old.blackbox (pulls self.old) self.old.frame.bytes) }
    {
        let pulling = self.pulls();
        self.blackbox.note(pulling, self.frame);
    }
}

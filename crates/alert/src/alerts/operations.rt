// What raising, answering and clearing do to an alert record, and when it asserts the alert.
ghost use Rattle.std.specs.Prelude.{◌≡◌, true, ◌↔◌};
ghost use Rattle.alert.specs.Alerts.{AfterAnswer, AfterClear, AfterRaise, Asserts, asserts};
ghost use Rattle.alert.specs.Conditions.{Empty};

use crate::alerts::AlertRecord;
use crate::conditions::Conditions;

impl AlertRecord {
    // A record with a first set latched and nothing answered.
    pub fn new(first: Conditions) -> AlertRecord
        ensures latched { result.latched ≡ first }
        ensures answered { Empty result.answered }
    {
        AlertRecord {
            latched: first,
            answered: Conditions::empty(),
        }
    }

    // Latches each condition of the set.
    pub fn raise(&mut self, set: Conditions)
        ensures { AfterRaise set self.old self.new }
    {
        self.latched = self.latched.union(set);
    }

    // Makes each latched condition an answered one, the masked ones too.
    pub fn answer(&mut self)
        ensures { AfterAnswer self.old self.new }
    {
        self.answered = self.latched;
    }

    // Empties both sets.
    pub fn clear(&mut self)
        ensures { AfterClear self.new }
    {
        self.latched = Conditions::empty();
        self.answered = Conditions::empty();
    }

    // Whether some latched condition is neither answered nor covered by the mask.
    pub fn asserts(&self, mask: u16) -> bool
        ensures value { result ≡ asserts self.now mask }
        ensures test { (result ≡ true) ↔ Asserts self.now mask }
    {
        self.latched.bits & !self.answered.bits & !u32::from(mask) != 0
    }
}

// What an alert record holds.
ghost use Rattle.std.specs.Prelude.{◌≡◌};

use crate::alerts::AlertRecord;
use crate::conditions::Conditions;

impl AlertRecord {
    // The conditions that were raised since the last clear.
    pub fn latched(&self) -> Conditions
        ensures { result ≡ self.now.latched }
    {
        self.latched
    }

    // Those of the latched conditions that the station has answered.
    pub fn answered(&self) -> Conditions
        ensures { result ≡ self.now.answered }
    {
        self.answered
    }
}

// Who answers an alert read.
ghost use Rattle.std.specs.Prelude.{◌≡◌};

use smbus::Address;

// The address that won an alert read: the lowest that pulls. Only an alert read makes one, so no program can have a station answer otherwise.
#[derive(Clone, Copy, PartialEq, Eq, Debug)]
pub struct AlertWinner {
    address: Address,
}

impl AlertWinner {
    // The winner at an address: for an alert read alone to say.
    pub(crate) fn new(address: Address) -> AlertWinner
        ensures { result.address ≡ address }
    {
        AlertWinner { address }
    }

    // The address that won.
    pub fn address(self) -> Address
        ensures { result ≡ self.address }
    {
        self.address
    }
}

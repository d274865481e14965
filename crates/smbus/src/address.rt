// The 7-bit address of a device.
ghost use Rattle.std.specs.Prelude.{◌≡◌};
ghost use Rattle.smbus.specs.Address.{Lawful, write_byte, read_byte};

use crate::refusal::AddressRefusal;

// A lawful address: a value of this type is one by itself.
#[derive(Clone, Copy, PartialEq, Eq, Debug)]
pub struct Address {
    byte: u8,
    ghost lawful: { Lawful byte },
}

impl Address {
    // The lowest lawful address.
    const LOWEST: u8 = 0x08;

    // The highest lawful address.
    const HIGHEST: u8 = 0x77;

    // The address between them that no device has: a host reads it to ask who pulls the alert line.
    const ALERT_RESPONSE: u8 = 0x0c;

    // The address itself, seven bits.
    pub fn byte(self) -> u8
        ensures value { result ≡ self.byte }
        ensures lawful { Lawful result }
    {
        self.byte
    }

    // The byte that begins a write to the address.
    pub fn write_byte(self) -> u8
        ensures { result ≡ write_byte self.byte }
    {
        2 * self.byte
    }

    // The byte that begins a read from the address.
    pub fn read_byte(self) -> u8
        ensures { result ≡ read_byte self.byte }
    {
        self.write_byte() + 1
    }
}

// A byte is an address exactly where it is a lawful one.
impl TryFrom<u8> for Address {
    ghost use Rattle.smbus.specs.Acceptance.{Accepts};

    type Error = AddressRefusal;

    ghost try_from_gives = { Accepts };

    fn try_from(byte: u8) -> Result<Address, AddressRefusal> {
        match byte {
            Address::LOWEST..=Address::HIGHEST if byte != Address::ALERT_RESPONSE => {
                Ok(Address { byte })
            }
            _ => Err(AddressRefusal::Unlawful),
        }
    }
}

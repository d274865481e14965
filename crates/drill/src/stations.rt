// The stations of the drill, as built.
ghost use Rattle.std.specs.Prelude.{◌≡◌};
ghost use Rattle.alert.specs.Conditions.{Empty, Only};
ghost use Rattle.smbus.specs.Address.{Lawful};

use alert::Conditions;
use practice::PracticeStation;
use smbus::Address;

// The mask word that covers condition 12 alone.
const COVERS_12: u16 = 0x1000;

// The mask word that covers all that a mask can cover.
const COVERS_ALL: u16 = 0xffff;

// The set of condition 16, which no mask covers.
fn condition_16() -> Conditions
    ensures { Only 16 result }
{
    Conditions::only(16).unwrap()
}

// The station at an address as it is built: the set that is latched first, and the mask.
// Each of the four functions below is a call of it with its own numbers, which its contract promises.
fn station(address: u8, first: Conditions, mask: u16) -> PracticeStation
    requires { Lawful address }
    ensures address { result.entry.address.byte ≡ address }
    ensures first { result.first ≡ first }
    ensures mask { result.mask ≡ mask }
{
    PracticeStation::new(Address::try_from(address).unwrap(), first, mask)
}

// The station 10h: condition 16 is latched as it is built, and nothing is masked.
pub fn station_10h() -> PracticeStation
    ensures address { result.entry.address.byte ≡ 0x10 }
    ensures first { Only 16 result.first }
    ensures mask { result.mask ≡ 0 }
{
    station(0x10, condition_16(), 0)
}

// The station 12h: nothing is latched, and nothing is masked.
pub fn station_12h() -> PracticeStation
    ensures address { result.entry.address.byte ≡ 0x12 }
    ensures first { Empty result.first }
    ensures mask { result.mask ≡ 0 }
{
    station(0x12, Conditions::empty(), 0)
}

// The station 14h: nothing is latched, and condition 12 is masked.
pub fn station_14h() -> PracticeStation
    ensures address { result.entry.address.byte ≡ 0x14 }
    ensures first { Empty result.first }
    ensures mask { result.mask ≡ 0x1000 }
{
    station(0x14, Conditions::empty(), COVERS_12)
}

// Another station at 10h: as the first, but all is masked that a mask can cover.
pub fn other_station_10h() -> PracticeStation
    ensures address { result.entry.address.byte ≡ 0x10 }
    ensures first { Only 16 result.first }
    ensures mask { result.mask ≡ 0xffff }
{
    station(0x10, condition_16(), COVERS_ALL)
}

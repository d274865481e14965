// How many decimals a value has.
ghost use Rattle.std.specs.Prelude.{◌≡◌, ◌^◌, ◌≤◌};
ghost use Rattle.sheet_line.specs.Forms.{decimals};

use direct::Quantity;

// How many digits may follow the point of a value: at most six, so that a value fits 64 bits.
#[derive(Clone, Copy)]
pub struct Decimals {
    pub places: u8,
    ghost small: { places ≤ 6 },
}

impl Decimals {
    // The decimals of the quantity: milliwatts for power, millionths otherwise.
    pub fn of(quantity: Quantity) -> Decimals
        ensures { result.places ≡ decimals quantity }
    {
        let places = match quantity {
            Quantity::Pin => 3,
            Quantity::Vin
            | Quantity::Vout
            | Quantity::Vaux
            | Quantity::Iin
            | Quantity::Temperature => 6,
        };
        Decimals { places }
    }

    // How many units of the last decimal make a whole.
    #[tactic(auto, using(crate::proofs::Scales::power_up))]
    pub fn units(self) -> u64
        ensures value { result ≡ 10 ^ self.places }
        ensures bound { result ≤ 10 ^ 6 }
    {
        10u64.pow(u32::from(self.places))
    }
}

// How many decimals a value of the quantity has, for other crates, to which the type Decimals is not shown.
pub fn decimals_of(quantity: Quantity) -> u8
    ensures value { result ≡ decimals quantity }
    ensures small { result ≤ 6 }
{
    Decimals::of(quantity).places
}

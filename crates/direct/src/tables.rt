// The coefficients m, b and R of each kind, for a sense resistor of 1 mΩ: one constant table for each kind.
ghost use Rattle.std.specs.Prelude.{◌≡◌};
ghost use Rattle.direct.specs.Coefficients.{rows_of, row_of, coefficients_of};
ghost use Rattle.direct.specs.Sound.{Sound};

use crate::cards::{Card, CurrentLimit, Kind};
use crate::quantities::Quantity;

// A word Y and the value X that it stands for, in the quantity's base unit, go by Y = (m X + b) × 10^R. R is never above 0.
#[derive(Clone, Copy)]
pub struct Coefficients {
    pub m: u32,
    pub b: i32,
    pub r: i8,
}

// The coefficients of one kind: of IIN and PIN at either CL setting, since no other quantity depends on it.
#[derive(Clone, Copy)]
pub struct Rows {
    pub vin: Coefficients,
    pub vout: Coefficients,
    pub vaux: Coefficients,
    pub iin_vdd: Coefficients,
    pub iin_ground: Coefficients,
    pub pin_vdd: Coefficients,
    pub pin_ground: Coefficients,
    pub temperature: Coefficients,
}

// The coefficients of LM25066.
const LM25066: Rows = Rows {
    vin: Coefficients {
        m: 22070,
        b: -1800,
        r: -2,
    },
    vout: Coefficients {
        m: 22070,
        b: -1800,
        r: -2,
    },
    vaux: Coefficients {
        m: 3546,
        b: -3,
        r: 0,
    },
    iin_vdd: Coefficients {
        m: 6854,
        b: -3100,
        r: -2,
    },
    iin_ground: Coefficients {
        m: 13661,
        b: -5200,
        r: -2,
    },
    pin_vdd: Coefficients {
        m: 369,
        b: -1900,
        r: -2,
    },
    pin_ground: Coefficients {
        m: 736,
        b: -3300,
        r: -2,
    },
    temperature: Coefficients {
        m: 16000,
        b: 0,
        r: -3,
    },
};

// The coefficients of LM5064.
const LM5064: Rows = Rows {
    vin: Coefficients {
        m: 4611,
        b: -642,
        r: -2,
    },
    vout: Coefficients {
        m: 4621,
        b: 423,
        r: -2,
    },
    vaux: Coefficients {
        m: 13808,
        b: 0,
        r: -1,
    },
    iin_vdd: Coefficients {
        m: 10742,
        b: 1552,
        r: -2,
    },
    iin_ground: Coefficients {
        m: 5456,
        b: 2118,
        r: -2,
    },
    pin_vdd: Coefficients {
        m: 1204,
        b: 8524,
        r: -3,
    },
    pin_ground: Coefficients {
        m: 612,
        b: 11202,
        r: -3,
    },
    temperature: Coefficients {
        m: 16000,
        b: 0,
        r: -3,
    },
};

// The coefficients of LM5056.
const LM5056: Rows = Rows {
    vin: Coefficients {
        m: 4612,
        b: -566,
        r: -2,
    },
    vout: Coefficients {
        m: 4607,
        b: 179,
        r: -2,
    },
    vaux: Coefficients {
        m: 13801,
        b: 11,
        r: -1,
    },
    iin_vdd: Coefficients {
        m: 14985,
        b: 4271,
        r: -2,
    },
    iin_ground: Coefficients {
        m: 7471,
        b: 1949,
        r: -2,
    },
    pin_vdd: Coefficients {
        m: 1684,
        b: 22344,
        r: -3,
    },
    pin_ground: Coefficients {
        m: 839,
        b: 9822,
        r: -3,
    },
    temperature: Coefficients {
        m: 16000,
        b: 0,
        r: -3,
    },
};

impl Rows {
    // The row of a quantity; for IIN and PIN at the CL setting.
    fn row(&self, quantity: Quantity, current_limit: CurrentLimit) -> Coefficients
        ensures { result ≡ row_of self.now quantity current_limit }
    {
        match (quantity, current_limit) {
            (Quantity::Vin, _) => self.vin,
            (Quantity::Vout, _) => self.vout,
            (Quantity::Vaux, _) => self.vaux,
            (Quantity::Iin, CurrentLimit::Vdd) => self.iin_vdd,
            (Quantity::Iin, CurrentLimit::Ground) => self.iin_ground,
            (Quantity::Pin, CurrentLimit::Vdd) => self.pin_vdd,
            (Quantity::Pin, CurrentLimit::Ground) => self.pin_ground,
            (Quantity::Temperature, _) => self.temperature,
        }
    }
}

impl Kind {
    // The kind's table.
    #[tactic(auto, unfolding(crate::specs::Coefficients::rows_of))]
    fn rows(self) -> &'static Rows
        ensures { result.now ≡ rows_of self }
    {
        match self {
            Kind::Lm25066 => &LM25066,
            Kind::Lm5064 => &LM5064,
            Kind::Lm5056 => &LM5056,
        }
    }
}

impl Card {
    // The coefficients of a quantity on the card.
    #[tactic(auto, using(crate::proofs::SoundRows::sound_rows))]
    pub(crate) fn coefficients_of(&self, quantity: Quantity) -> Coefficients
        ensures value { result ≡ coefficients_of self.now.kind quantity self.now.current_limit }
        ensures sound { Sound quantity result }
    {
        self.kind.rows().row(quantity, self.current_limit)
    }
}

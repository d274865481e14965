// How sets of conditions are made, joined and looked into.
ghost use Rattle.std.specs.Prelude.{◌≡◌, ℕ, ◌<◌, ◌≤◌, true, ◌↔◌, MatchOption};
ghost use Rattle.alert.specs.Conditions.{Empty, Has, Only, Union};

use crate::conditions::Conditions;

impl Conditions {
    // How many conditions there are; their numbers begin at 0.
    const COUNT: u8 = 17;

    // The set of no condition.
    pub fn empty() -> Conditions
        ensures { Empty result }
    {
        Conditions { bits: 0 }
    }

    // The set of one condition; none where the number is above 16.
    // No TryFrom: a number names one condition here, where From<u16> takes a word of them.
    pub fn only(number: u8) -> Option<Conditions>
        ensures { MatchOption result (16 < number) (λ s. (number ≤ 16) × Only number s) }
    {
        // An if and no `then`: inside its closure the proof does not know that the number is below 17.
        if number >= Conditions::COUNT {
            return None;
        }
        Some(Conditions { bits: 1 << number })
    }

    // The set of the one condition that a refused transfer raises: communication, memory or logic (CML), number 1.
    pub fn communication() -> Conditions
        ensures { Only 1 result }
    {
        Conditions { bits: 2 }
    }

    // The conditions that are in one of the two sets, or in both.
    pub fn union(self, other: Conditions) -> Conditions
        ensures { Union self other result }
    {
        Conditions {
            bits: self.bits | other.bits,
        }
    }

    // Whether a condition is in the set; no number above 16 is.
    pub fn contains(self, number: u8) -> bool
        ensures { (result ≡ true) ↔ Has number self }
    {
        number < Conditions::COUNT && (self.bits >> number) & 1 == 1
    }

    // Whether no condition is in the set.
    pub fn is_empty(self) -> bool
        ensures { (result ≡ true) ↔ Empty self }
    {
        self.bits == 0
    }
}

// The conditions 0 to 15 whose bits are 1 in a word.
impl From<u16> for Conditions {
    ghost use Rattle.alert.specs.Bits.{has_bit};

    ghost from_gives = { λ word s. (c : ℕ) → Has c s ↔ (has_bit c word ≡ true) };

    fn from(word: u16) -> Conditions {
        Conditions {
            bits: u32::from(word),
        }
    }
}

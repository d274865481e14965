// The words of a line and what they mean.
// The words stand here beside the names in direct: a misfit's place comes from comparing each word byte by byte, and VEE is a word only here.
ghost use Rattle.std.specs.Prelude.{◌≡◌, ℕ, List, map};
ghost use Rattle.sheet_line.specs.Names.{keywords, blank, kinds, current_limits, registers};
ghost use Rattle.sheet_line.specs.Pieces.{named, seen, one_of};
ghost use Rattle.sheet_line.specs.declared.expected.Expected.{Expected};

use crate::expected::Expected;
use crate::pieces::{Named, Read, Stop, one_of};
use direct::{CurrentLimit, Kind, LimitRegister};

// The meaning of a word: each type of meanings has its words, none of which begins another.
pub trait Word: Copy + 'static {
    // The words and what they mean.
    ghost words: { List (List ℕ × Self) };

    // What a line could have gone on with where none of them stands.
    ghost EXPECTED: { Expected };

    // The same as a value.
    const EXPECTED: Expected;

    // The words, each beside its meaning. A function and no constant, so that a clause can say what the words are.
    fn words() -> &'static [Named<Self>]
        ensures { map named result.now ≡ words };
}

// The word that a line begins with.
#[derive(Clone, Copy)]
pub enum Keyword {
    Card,
    Limit,
}

// What stands between two words.
#[derive(Clone, Copy)]
pub struct Blank;

// The words that a line begins with.
const KEYWORDS: &[Named<Keyword>] = &[
    Named {
        text: b"card",
        means: Keyword::Card,
    },
    Named {
        text: b"limit",
        means: Keyword::Limit,
    },
];

// A line begins with a keyword.
impl Word for Keyword {
    ghost words = { keywords };

    ghost EXPECTED = { Expected.Form };

    const EXPECTED: Expected = Expected::Form;

    fn words() -> &'static [Named<Keyword>] {
        KEYWORDS
    }
}

// The one word between two others.
const BLANK: &[Named<Blank>] = &[Named {
    text: b" ",
    means: Blank,
}];

// A blank is a word of one byte.
impl Word for Blank {
    ghost words = { blank };

    ghost EXPECTED = { Expected.Blank };

    const EXPECTED: Expected = Expected::Blank;

    fn words() -> &'static [Named<Blank>] {
        BLANK
    }
}

// The kinds of cards, by their names.
const KINDS: &[Named<Kind>] = &[
    Named {
        text: b"LM25066",
        means: Kind::Lm25066,
    },
    Named {
        text: b"LM5064",
        means: Kind::Lm5064,
    },
    Named {
        text: b"LM5056",
        means: Kind::Lm5056,
    },
];

// A card line names the kind of its card.
impl Word for Kind {
    ghost words = { kinds };

    ghost EXPECTED = { Expected.Kind };

    const EXPECTED: Expected = Expected::Kind;

    fn words() -> &'static [Named<Kind>] {
        KINDS
    }
}

// What the CL pin is tied to: VEE is ground.
const CURRENT_LIMITS: &[Named<CurrentLimit>] = &[
    Named {
        text: b"VDD",
        means: CurrentLimit::Vdd,
    },
    Named {
        text: b"GND",
        means: CurrentLimit::Ground,
    },
    Named {
        text: b"VEE",
        means: CurrentLimit::Ground,
    },
];

// A card line says what the CL pin is tied to.
impl Word for CurrentLimit {
    ghost words = { current_limits };

    ghost EXPECTED = { Expected.CurrentLimit };

    const EXPECTED: Expected = Expected::CurrentLimit;

    fn words() -> &'static [Named<CurrentLimit>] {
        CURRENT_LIMITS
    }
}

// The limit registers, by their names.
const REGISTERS: &[Named<LimitRegister>] = &[
    Named {
        text: b"VOUT_UV",
        means: LimitRegister::VoutUv,
    },
    Named {
        text: b"VIN_OV",
        means: LimitRegister::VinOv,
    },
    Named {
        text: b"VIN_UV",
        means: LimitRegister::VinUv,
    },
    Named {
        text: b"IIN_OC",
        means: LimitRegister::IinOc,
    },
    Named {
        text: b"PIN_OP",
        means: LimitRegister::PinOp,
    },
    Named {
        text: b"OT_WARN",
        means: LimitRegister::OtWarn,
    },
    Named {
        text: b"OT_FAULT",
        means: LimitRegister::OtFault,
    },
];

// A limit line names the register of its limit.
impl Word for LimitRegister {
    ghost words = { registers };

    ghost EXPECTED = { Expected.LimitName };

    const EXPECTED: Expected = Expected::LimitName;

    fn words() -> &'static [Named<LimitRegister>] {
        REGISTERS
    }
}

// A word at the front of what is left of a line.
pub fn word_at<T: Word>(rest: &[u8]) -> Result<Read<'_, T>, Stop>
    ensures { seen result ≡ one_of T.EXPECTED T.words rest.now }
{
    one_of(rest, T::words(), T::EXPECTED)
}

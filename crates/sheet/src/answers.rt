// What a line of the sheet is answered.
ghost use Rattle.std.specs.Prelude.{◌≡◌, IfOk};
ghost use Rattle.sheet.specs.declared.answers.Refusal.TheVariants as refusal;
ghost use Rattle.sheet.specs.Answers.{placed_card, placed, given_place, place, bytes_of, write_of, limit_answer, answer_of, next_card, Sound};

use direct::{Card, ConversionRefusal, LimitRegister};
use sheet_line::{Expected, Limit, Line, Misfit};
use smbus::{Address, AddressRefusal, write_code};

// The bytes on the bus that write a word to a register.
#[derive(Clone, Copy, PartialEq, Eq, Debug)]
pub struct WordWrite {
    // The address for a write.
    pub address: u8,
    pub command: u8,
    pub low: u8,
    pub high: u8,
    // The packet error code of the bytes before it.
    pub code: u8,
}

impl WordWrite {
    // The write of a word to a register, low byte first.
    fn new(address: Address, register: LimitRegister, word: u16) -> WordWrite
        ensures { result ≡ write_of address.byte register word }
    {
        let command = register.code();
        let [low, high] = word.to_le_bytes();
        WordWrite {
            address: address.write_byte(),
            command,
            low,
            high,
            code: write_code(address, &[command, low, high]),
        }
    }

    // The bytes in the order in which they are sent.
    pub fn bytes(self) -> [u8; 5]
        ensures { result ≡ bytes_of self }
    {
        [self.address, self.command, self.low, self.high, self.code]
    }
}

// How a limit is set: the word of the value that was asked, the value that the word stands for, and the write.
// Values are in units of the last decimal: µV, µA, µ°C, or mW.
#[derive(Clone, Copy, PartialEq, Eq, Debug)]
pub struct Setting {
    pub word: u16,
    pub stands_for: i64,
    pub write: WordWrite,
}

// A card and the byte of its address.
// Beside Monitor: the definitions speak of the byte alone, and an Address there would carry its proof into each of them.
#[derive(Clone, Copy, PartialEq, Eq, Debug)]
pub struct PlacedCard {
    pub address: u8,
    pub card: Card,
}

// A limit that is set, and how.
#[derive(Clone, Copy, PartialEq, Eq, Debug)]
pub struct SetLimit {
    pub limit: Limit,
    pub setting: Setting,
}

// What a line is answered where nothing of it is refused.
#[derive(Clone, Copy, PartialEq, Eq, Debug)]
pub enum Answer {
    // The line is a note.
    Note,
    // The card is set for the lines that follow.
    Card(PlacedCard),
    // The limit is set on the card.
    Limit(SetLimit),
}

// Why a line is refused.
#[derive(Clone, Copy, PartialEq, Eq, Debug)]
pub enum Refusal {
    // The address of a card is not lawful.
    Card(AddressRefusal),
    // The value of a limit has no word on the card.
    Limit {
        limit: Limit,
        refusal: ConversionRefusal,
    },
    // The line has none of the forms, or it is a limit without a card.
    Misfit(Misfit),
}

// A card line is refused where its address is.
impl From<AddressRefusal> for Refusal {
    ghost from_gives = { λ e r. r ≡ refusal.Card e };

    fn from(refusal: AddressRefusal) -> Refusal {
        Refusal::Card(refusal)
    }
}

// A line that is not understood is refused for its misfit.
impl From<Misfit> for Refusal {
    ghost from_gives = { λ m r. r ≡ refusal.Misfit m };

    fn from(misfit: Misfit) -> Refusal {
        Refusal::Misfit(misfit)
    }
}

// A card at its address.
#[derive(Clone, Copy, PartialEq, Eq, Debug)]
pub struct Monitor {
    pub address: Address,
    pub card: Card,
}

impl Monitor {
    // A card at an address, which has to be lawful.
    fn at(address: u8, card: Card) -> Result<Monitor, AddressRefusal>
        ensures { given_place result ≡ place address card }
    {
        let address = Address::try_from(address)?;
        Ok(Monitor { address, card })
    }

    // How a limit is set on the card. It is refused where its value has no word there.
    pub fn setting_of(&self, limit: Limit) -> Result<Setting, ConversionRefusal>
        ensures value { result ≡ limit_answer (placed_card self.now) limit }
        ensures sound { IfOk result (λ s. Sound self.now.card limit.register s) }
    {
        let quantity = limit.register.quantity();
        let word = self.card.word_of(quantity, limit.value)?;
        let stands_for = self.card.read_back(quantity, word)?.value;
        let write = WordWrite::new(self.address, limit.register, word);
        Ok(Setting {
            word,
            stands_for,
            write,
        })
    }
}

// The answer to a line, where `monitor` is the card that is set, if one is; it is left as the card for the lines that follow.
pub fn answer_line(
    line: Result<Line, Misfit>,
    monitor: &mut Option<Monitor>,
) -> Result<Answer, Refusal>
    ensures answer { result ≡ answer_of line (placed monitor.old) }
    ensures next { placed monitor.new ≡ next_card line (placed monitor.old) }
{
    match line? {
        Line::Note => Ok(Answer::Note),
        Line::Card { address, card } => {
            let placed = Monitor::at(address, card);
            *monitor = placed.ok();
            placed?;
            Ok(Answer::Card(PlacedCard { address, card }))
        }
        Line::Limit(limit) => {
            let monitor = monitor.ok_or(Misfit {
                place: 0,
                expected: Expected::CardBefore,
            })?;
            let setting = monitor
                .setting_of(limit)
                .map_err(|refusal| Refusal::Limit { limit, refusal })?;
            Ok(Answer::Limit(SetLimit { limit, setting }))
        }
    }
}

// A request for a conversion, read from the words of a line:
//   value KIND QUANTITY CL RESISTOR WORD     the value of a word of four hexadecimal digits
//   word KIND QUANTITY CL RESISTOR VALUE     the word of a value in µV, µA, µ°C or mW
ghost use Rattle.std.specs.Prelude.{◌≡◌, IfOk, IfSome};
ghost use Rattle.conversion_vectors.specs.Answers.{answered};
ghost use Rattle.conversion_vectors.specs.Requests.{words_of, AsksIn, Asks};

use direct::{Card, ConversionRefusal, CurrentLimit, Kind, Quantity};
use std::str::FromStr;

// What is asked for: the value of a word, or the word of a value.
#[derive(Clone, Copy)]
pub enum Asked {
    ValueOf(u16),
    WordOf(i64),
}

// A conversion that is asked for, of a quantity on a card.
#[derive(Clone, Copy)]
pub struct Request {
    pub card: Card,
    pub quantity: Quantity,
    pub asked: Asked,
}

// What a conversion gives.
#[derive(Clone, Copy)]
pub enum Answer {
    Value(i64),
    Word(u16),
}

impl Request {
    // Makes the conversion.
    pub fn answer(self) -> Result<Answer, ConversionRefusal>
        ensures { result ≡ answered self }
    {
        match self.asked {
            Asked::ValueOf(word) => { Ok(Answer::Value(self.card.value_of(self.quantity, word)?)) }
            Asked::WordOf(value) => { Ok(Answer::Word(self.card.word_of(self.quantity, value)?)) }
        }
    }
}

// A line that asks for no conversion.
#[derive(Clone, Copy)]
pub struct NotARequest;

// The request that the line asks for.
impl FromStr for Request {
    type Err = NotARequest;

    ghost from_str_gives = { λ line r. IfOk r (Asks (words_of line)) };

    fn from_str(line: &str) -> Result<Request, NotARequest> {
        request_of(line).ok_or(NotARequest)
    }
}

// The request of a line, if it is one; words after the sixth are not looked at.
// Apart from from_str, so that ? can end it.
fn request_of(line: &str) -> Option<Request>
    ensures { IfSome result (Asks (words_of line.now)) }
{
    let mut words = line.split(' ');
    let form = words.next()?;
    let kind = words.next()?.parse::<Kind>().ok()?;
    let quantity = words.next()?.parse::<Quantity>().ok()?;
    let current_limit = words.next()?.parse::<CurrentLimit>().ok()?;
    let resistor = words.next()?.parse::<u32>().ok()?;
    let asked = read_asked(form, words.next()?)?;
    let card = Card {
        kind,
        current_limit,
        resistor,
    };
    Some(Request {
        card,
        quantity,
        asked,
    })
}

// What is asked for in that form, of the number written in it.
fn read_asked(form: &str, number: &str) -> Option<Asked>
    ensures { IfSome result (AsksIn form.now number.now) }
{
    match form {
        "value" => Some(Asked::ValueOf(u16::from_str_radix(number, 16).ok()?)),
        "word" => Some(Asked::WordOf(number.parse::<i64>().ok()?)),
        _ => None,
    }
}

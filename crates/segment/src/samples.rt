// One set of readings, as a station is given it.

// Five plain words, each as a converter would give it, and a word of pins. A station judges them itself.
#[derive(Clone, Copy, PartialEq, Eq, Debug)]
pub struct Sample {
    pub vin: u16,
    pub vout: u16,
    pub iin: u16,
    pub vaux: u16,
    pub temperature: u16,
    pub pins: u16,
}

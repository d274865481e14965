// A history as data.
use crate::calls::{Answer, Call};
use alert::Entry;

// What shows at a moment: an entry for each station, left side first, whether the alert line is low, and the reply buffer.
#[derive(Drop)]
pub struct Moment {
    pub entries: Vec<Entry>,
    // Kept beside the entries, since that the two agree is a part of what a history says.
    pub low: bool,
    pub reply: Vec<u8>,
}

// A call, its answer, and what shows at its end.
#[derive(Drop)]
pub struct Turn<'a> {
    pub call: Call<'a>,
    pub answer: Answer,
    pub after: Moment,
}

// What showed before the first call, and the turns since, the oldest first.
#[derive(Drop)]
pub struct History<'a> {
    pub start: Moment,
    pub turns: Vec<Turn<'a>>,
}

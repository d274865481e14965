// The lines of a text.
ghost use Rattle.std.specs.Prelude.{◌≡◌, ◌^◌, ◌<◌, length, MatchOption};
ghost use Rattle.std.specs.Iterator.{YieldsFirstBy, item_count};
ghost use Rattle.text.specs.Lines.{lines_of, Splits};

// The first line of a text, without its end, and what follows that end.
#[derive(Clone, Copy)]
pub struct FirstLine<'a> {
    pub line: &'a [u8],
    pub rest: &'a [u8],
}

// The first line of a text that has a byte.
fn split_line(text: &[u8]) -> FirstLine<'_>
    requires { 0 < length text.now }
    ensures { Splits text.now result.line.now result.rest.now }
{
    match text.iter().position(|byte| *byte == b'\n') {
        Some(end) => FirstLine {
            line: &text[..end],
            rest: &text[end + 1..],
        },
        None => FirstLine {
            line: text,
            rest: &[],
        },
    }
}

// The first line of `text`; none where the text is empty.
pub fn first_line(text: &[u8]) -> Option<FirstLine<'_>>
    ensures { MatchOption result (length text.now ≡ 0) (λ x. Splits text.now x.line.now x.rest.now) }
{
    if text.is_empty() {
        None
    } else {
        Some(split_line(text))
    }
}

// The lines of a text that are still to come, the first one first.
// An own iterator: the library's split gives an empty line after the last line end.
#[derive(Drop)]
pub struct Lines<'a> {
    rest: &'a [u8],
}

impl<'a> Lines<'a> {
    // All lines of `text`.
    #[tactic(auto, using(crate::proofs::Splitting::few_lines))]
    pub fn new(text: &'a [u8]) -> Lines<'a>
        ensures all { lines_of result.rest.now ≡ lines_of text.now }
        ensures few { length (lines_of result.rest.now) < 2 ^ 64 }
    {
        Lines { rest: text }
    }
}

// Each step takes the first line off the text.
impl<'a> Iterator for Lines<'a> {
    type Item = &'a [u8];

    ghost next_gives = { YieldsFirstBy (λ line. line.now) (λ lines. lines_of lines.rest.now) };

    ghost remaining = { item_count (λ lines. lines_of lines.rest.now) };

    fn next(&mut self) -> Option<&'a [u8]> {
        let first = first_line(self.rest)?;
        self.rest = first.rest;
        Some(first.line)
    }
}

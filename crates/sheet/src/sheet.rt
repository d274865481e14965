// The whole sheet.
ghost use Rattle.std.specs.Prelude.{◌≡◌, ◌+◌, ◌^◌, ◌<◌, Some, IfOk};
ghost use Rattle.sheet.specs.Sheet.{one_if, is_set, is_refused, is_misfit, last_line, printed_sheet};

use crate::answers::{Answer, Refusal, answer_line};
use crate::printing::print_answer;
use sheet_line::read_line;
use std::alloc::{AllocError, Global};
use std::fmt;
use text::Lines;

// How many limits were set and refused, and how many lines were not understood.
#[derive(Clone, Copy, Default)]
struct Tally {
    set: usize,
    refused: usize,
    misfits: usize,
}

impl Tally {
    // Counts one answer more.
    fn count(&mut self, answer: Result<Answer, Refusal>)
        requires { self.now.set + self.now.refused + self.now.misfits + 1 < 2 ^ 64 }
        ensures set { self.new.set ≡ self.old.set + one_if (is_set answer) }
        ensures refused { self.new.refused ≡ self.old.refused + one_if (is_refused answer) }
        ensures misfits { self.new.misfits ≡ self.old.misfits + one_if (is_misfit answer) }
    {
        match answer {
            Ok(Answer::Limit(_)) => self.set += 1,
            Err(Refusal::Limit { .. }) => self.refused += 1,
            Err(Refusal::Misfit(_)) => self.misfits += 1,
            Ok(Answer::Note | Answer::Card(_)) | Err(Refusal::Card(_)) => {}
        }
    }
}

// The last line of what is printed, with its end.
impl fmt::Display for Tally {
    ghost output = { λ t. Some (last_line t.set t.refused t.misfits) };

    fn fmt<W: fmt::Write>(&self, f: &mut fmt::Formatter<W>) -> fmt::Result {
        let Tally {
            set,
            refused,
            misfits,
        } = *self;
        writeln!(
            f,
            "limits set {set}, refused {refused}, lines not understood {misfits}"
        )
    }
}

// What is printed of the sheet: a line for each line of `input`, and the tally.
#[tactic(auto, using(crate::proofs::Turns::one_more, crate::proofs::Turns::finished))]
pub fn sheet_of(heap: Global, input: &[u8]) -> Result<Vec<u8>, AllocError>
    ensures { IfOk result (λ v. v.items ≡ printed_sheet input.now) }
{
    let mut text = Vec::new(heap);
    let mut tally = Tally::default();
    let mut monitor = None;
    for (before, line) in Lines::new(input).enumerate() {
        let answer = answer_line(read_line(line), &mut monitor);
        let printed = print_answer(heap, before + 1, line, answer)?;
        text.extend_from_slice(printed.as_slice())?;
        tally.count(answer);
    }
    let last = tally.to_string(heap)?;
    text.extend_from_slice(last.as_bytes())?;
    Ok(text)
}

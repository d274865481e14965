// Text as bytes: its lines, the digits in it, words compared with it, numbers and bytes as they are printed, and text appended to a Vec.
#![tactic(auto)]

mod digits;
mod display;
mod lines;
mod words;
mod writing;

pub use digits::{LeadingNumber, decimal_digit, hex_byte, hex_digit, leading_number};
pub use display::{Fixed, Spaced};
pub use lines::{FirstLine, Lines, first_line};
pub use words::common_length;
pub use writing::{push_decimal, push_fixed, push_hex_byte, push_hex_word, push_text};

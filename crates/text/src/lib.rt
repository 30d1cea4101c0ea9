// Text in lent buffers: decimal and hexadecimal numbers put behind the text so far; and, from the crate below, the buffer and parts of slices. Standard
// output from a buffer and standard input into one are in `streams`.
#![tactic(auto)]

mod numerals;

pub use adding::{Text, first, part, within};
pub use numerals::{Number, put_hex, put_number, put_numbers};

// The line of a case: a letter, numbers, and the bytes of a buffer in hex.
use crate::cases::Case;
use crate::lengths::agreeing;
use crate::messages::put_message;
use crate::test_payloads::payloads;
use crate::wholes::verdict;
use text::Text;

pub fn put_line(text: &mut Text, case: Case) {
    let p = payloads();
    match case {
        Case::Message {
            id,
            from,
            len,
            room,
        } => put_message(text, id, text::part(&p, from, len), room),
        Case::Lengths { id, full } => {
            rows::put_row(text, b'l', &[id as u64, agreeing(id, &p, full) as u64]);
        }
        Case::Whole { bits, meant } => {
            rows::put_row(text, b'n', &[bits as u64, verdict(bits, meant)]);
        }
    }
}

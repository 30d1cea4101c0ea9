// Payloads of 1 to 300 bytes, none of them zero, read and written again: missing bytes are zero, bytes past the full length are ignored.
use crate::messages::{BEFORE, BUFFER, own_bytes, written};
use crate::test_payloads::LONGEST;

// Without zeros the first bytes are written as they are, up to the full length, and the buffer past them stays.
fn agrees(id: u32, payload: &[u8], full: usize) -> bool {
    let mut bytes = [BEFORE; BUFFER];
    let n = written(id, &own_bytes(id, payload), &mut bytes);
    let own = text::first(payload, full);
    let mut wanted = [BEFORE; BUFFER];
    writing::write(&mut wanted, 0, own);
    (n == own.len()) & (bytes == wanted)
}

// For how many lengths that holds.
pub fn agreeing(id: u32, payload: &[u8], full: usize) -> usize {
    (1..LONGEST + 1)
        .filter(|n| agrees(id, text::first(payload, *n), full))
        .count()
}

// Trimming: "Written payloads drop trailing zero bytes but keep at least one".
#![tactic(auto)]

ghost use Rattle.std.specs.Prelude.{◌≡◌, ◌+◌, ◌<◌, ◌≤◌, length};
ghost use Rattle.rules.specs.Payload.{significant, trim};
ghost use Rattle.rules.specs.Layouts.{layout_of};
ghost use Rattle.trimming.specs.Last.{LastOther, LastEight};
ghost use Rattle.trimming.specs.Written.{Written};

use copying::copy_front;
use fields::u64_at;
use message_table::full_of;

// How many zeros end eight bytes: as many as there are whole bytes of leading zeros in their number.
fn zeros_ending(eight: &[u8; 8]) -> usize
    ensures { result + significant eight.now ≡ 8 }
{
    (u64_at(eight, 0).leading_zeros() / 8) as usize
}

// The place of the last eight bytes that are not all zeros.
fn last_eight(eights: &[[u8; 8]]) -> Option<usize>
    ensures { LastEight eights.now result }
{
    eights.iter().rposition(|eight| zeros_ending(eight) < 8)
}

// The place of the last byte that is not zero.
fn last_other(bytes: &[u8]) -> Option<usize>
    ensures { LastOther bytes.now result }
{
    bytes.iter().rposition(|b| *b != 0)
}

// The length of bytes without trailing zeros, at least one where there are any: looked for from the end, byte by byte up to where eights end that begin behind the
// first byte, then eight at a time. The first byte stays.
pub fn trimmed_len(bytes: &[u8]) -> usize
    ensures { result ≡ length (trim bytes.now) }
{
    let n = bytes.len();
    if n == 0 {
        return n;
    }
    let (eights, rest) = bytes[1..].as_chunks::<8>();
    if let Some(last) = last_other(rest) {
        return n - rest.len() + last + 1;
    }
    match last_eight(eights) {
        Some(last) => 1 + 8 * last + (8 - zeros_ending(&eights[last])),
        None => 1,
    }
}

// Writes the bytes of a message of this id, trimmed, and answers how many. The rest of out stays; all of it if it is shorter than the
// message's full length, and 0 is answered.
pub fn write_trimmed(id: u32, bytes: &[u8], out: &mut [u8]) -> usize
    requires bytes_len { length bytes.now ≡ (layout_of id).full }
    requires bytes_nonzero { 0 < length bytes.now }
    ensures { Written bytes.now out.old out.new result }
{
    let full = full_of(id);
    if out.len() < full {
        return 0;
    }
    let n = trimmed_len(bytes);
    copy_front(bytes, n, out);
    n
}

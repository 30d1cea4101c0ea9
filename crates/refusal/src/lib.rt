// The refusals of each call, tested in their order: 14, 15, 10, 11, 12, 13.
#![tactic(auto)]

ghost use Rattle.std.specs.Prelude.{◌≡◌, ℕ, length, Some, IfOk};
ghost use Rattle.rules.specs.Payload.{Bytes};
ghost use Rattle.rules.specs.Messages.{Station, station};
ghost use Rattle.rules.specs.Calls.{message, timer, done, heard, ours_or_all};
ghost use Rattle.limits.specs.Codes.{outcome_code};
ghost use Rattle.limits.specs.Kinds.{kind_number};
ghost use Rattle.refusal.specs.Refusals.{refusal_of, room_refusal, HeadRead};

use limits::{Kind, NoKind, REPLY_BYTES, Refusal, STORE_WORDS};
use message_table::Received;

// A target number that is ours, or 0 for all.
fn ours_or_all(own: u8, target: u8) -> bool
    ensures { result ≡ ours_or_all own target }
{
    (target == own) | (target == 0)
}

// To every call 14 and 15 apply, in this order; to "command done" calls nothing else.
pub fn done_refusal(ranged: bool, store_len: usize) -> Result<(), Refusal>
    ensures { outcome_code result ≡ refusal_of (heard ranged (done store_len)) }
{
    if store_len < STORE_WORDS {
        return Err(Refusal::ShortStore);
    }
    if !ranged {
        return Err(Refusal::OutOfRange);
    }
    Ok(())
}

// What message and timer calls are refused for first: 14, 15, 10.
fn room_refusal(ranged: bool, store_len: usize, reply_len: usize) -> Result<(), Refusal>
    ensures { outcome_code result ≡ room_refusal ranged store_len reply_len }
{
    done_refusal(ranged, store_len)?;
    if reply_len < REPLY_BYTES {
        return Err(Refusal::ShortReply);
    }
    Ok(())
}

// A message call with a payload of some bytes, and what was received, where its message is read here: given back where the call is not refused.
pub fn message_refusal(
    ranged: bool,
    store_len: usize,
    reply_len: usize,
    own_system: u8,
    own_component: u8,
    payload_len: usize,
    received: Option<Received>,
) -> Result<Received, Refusal>
    ensures outcome { (from : Station) (id : ℕ) (p : Bytes) (clock : ℕ) → length p ≡ payload_len → HeadRead id p received → outcome_code result ≡ refusal_of (heard ranged (message (station own_system own_component) from id p clock store_len reply_len)) }
    ensures given { IfOk result (λ got. received ≡ Some got) }
{
    room_refusal(ranged, store_len, reply_len)?;
    if payload_len == 0 {
        return Err(Refusal::EmptyPayload);
    }
    let got = received.ok_or(Refusal::NotRead)?;
    let head = got.head;
    if !(ours_or_all(own_system, head.system) & ours_or_all(own_component, head.component)) {
        return Err(Refusal::NotForUs);
    }
    Ok(got)
}

// Timer calls skip 11 and 13. The kind, which is judged here, is given back where the call is not refused.
pub fn timer_refusal(
    ranged: bool,
    store_len: usize,
    reply_len: usize,
    kind: u8,
) -> Result<Kind, Refusal>
    ensures outcome { (clock : ℕ) → outcome_code result ≡ refusal_of (heard ranged (timer kind clock store_len reply_len)) }
    ensures given { IfOk result (λ known. kind_number known ≡ kind) }
{
    room_refusal(ranged, store_len, reply_len)?;
    match Kind::try_from(kind) {
        Ok(known) => Ok(known),
        Err(NoKind) => Err(Refusal::NotRead),
    }
}

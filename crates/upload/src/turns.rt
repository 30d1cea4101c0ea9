// COUNT, MISSION_WRITE_PARTIAL_LIST, ACK and a timer call: what each makes of one kind's plan.
ghost use Rattle.std.specs.Prelude.{◌≡◌, Some};
ghost use Rattle.rules.specs.Messages.{station};
ghost use Rattle.rules.specs.Step.{part_ok};
ghost use Rattle.upload.specs.Turns.{with_upload, moves, count_turned, part_turned, ack_turned, timer_turned};

use super::counters::elapsed;
use super::updates::{emptied, ended, keeps, moves, renews, with_upload};
use super::uploads::{others_upload, own_upload};
use super::{Say, Turned};
use limits::{ACCEPTED, EXPIRY_MS, Fault, MAX_REPEATS};
use plan::{Plan, Run, Station};

// A 16-bit pattern from here on is a number below 0.
const HALF_SHORT: u16 = 32768;

// An upload starts, and its first item is asked for.
fn opened(plan: Plan, run: Run) -> Turned
    ensures { result ≡ moves (with_upload plan (Some run)) (Say.Ask run.first) }
{
    moves(with_upload(plan, Some(run)), Say::Ask(run.first))
}

// COUNT from a station, of a kind whose plans have at most `size` items.
#[tactic(auto, unfolding(crate::specs::Turns::count_turned))]
pub fn on_count(plan: Plan, from: Station, clock: u32, count: u16, size: u16) -> Turned
    ensures { result ≡ count_turned plan (station from.system from.component) clock count size }
{
    if others_upload(plan.upload, from) {
        return keeps(Say::Ack(Err(Fault::Denied)));
    }
    if size < count {
        return moves(ended(plan), Say::Ack(Err(Fault::NoSpace)));
    }
    if count == 0 {
        return renews(emptied(plan), Say::Ack(Ok(0)));
    }
    let run = Run {
        from,
        count,
        partial: false,
        first: 0,
        last: count - 1,
        next: 0,
        started: clock,
        repeats: 0,
    };
    opened(plan, run)
}

// Whether a plan of `len` items has those from start to end.
#[tactic(auto, unfolding(rules::specs::Step::part_ok))]
fn part_ok(len: u16, start: u16, end: u16) -> bool
    ensures { result ≡ part_ok len start end }
{
    (start < HALF_SHORT) & (end < HALF_SHORT) & (start <= end) & (end < len)
}

// MISSION_WRITE_PARTIAL_LIST from a station.
#[tactic(auto, unfolding(crate::specs::Turns::part_turned))]
pub fn on_partial(plan: Plan, from: Station, clock: u32, start: u16, end: u16) -> Turned
    ensures { result ≡ part_turned plan (station from.system from.component) clock start end }
{
    if others_upload(plan.upload, from) {
        return keeps(Say::Ack(Err(Fault::Denied)));
    }
    if !part_ok(plan.len, start, end) {
        return moves(ended(plan), Say::Ack(Err(Fault::InvalidSequence)));
    }
    let part = Run {
        from,
        count: plan.len,
        partial: true,
        first: start,
        last: end,
        next: start,
        started: clock,
        repeats: 0,
    };
    opened(plan, part)
}

// ACK from a station: a result that is not 0 ends the station's own upload. It is a number, since a station may send any.
#[tactic(auto, unfolding(crate::specs::Turns::ack_turned))]
pub fn on_ack(plan: Plan, from: Station, res: u8) -> Turned
    ensures { result ≡ ack_turned plan (station from.system from.component) res }
{
    if own_upload(plan.upload, from) & (res != ACCEPTED) {
        return moves(ended(plan), Say::Silent);
    }
    keeps(Say::Silent)
}

// A timer call of a running upload: below the expiry nothing, then five times a request again, then the end.
#[tactic(auto, unfolding(crate::specs::Turns::timer_turned))]
fn on_expiry(plan: Plan, run: Run, clock: u32) -> Turned
    ensures { result ≡ timer_turned (Some run) plan clock }
{
    if elapsed(clock, run.started) < EXPIRY_MS {
        return keeps(Say::Silent);
    }
    if run.repeats < MAX_REPEATS {
        let again = Run {
            started: clock,
            repeats: run.repeats + 1,
            ..run
        };
        return moves(with_upload(plan, Some(again)), Say::Ask(run.next));
    }
    moves(ended(plan), Say::Ack(Err(Fault::Cancelled)))
}

// A timer call.
#[tactic(auto, unfolding(crate::specs::Turns::timer_turned))]
pub fn on_timer(plan: Plan, clock: u32) -> Turned
    ensures { result ≡ timer_turned plan.upload plan clock }
{
    match plan.upload {
        None => keeps(Say::Silent),
        Some(run) => on_expiry(plan, run, clock),
    }
}

// One message call that is not refused: kind first, then what its message does to one plan; and a timer call. The state itself stays with the public call: what
// comes out is the effect on it.
#![tactic(auto)]

mod clears;

ghost use Rattle.std.specs.Prelude.{◌≡◌, true, ◌≤◌, length};
ghost use Rattle.rules.specs.Limits.{flight, fence, rally, store_words, reply_bytes_min};
ghost use Rattle.rules.specs.Layouts.{set_current_id, clear_all_id, ack_id};
ghost use Rattle.rules.specs.Messages.{station, decode};
ghost use Rattle.limits.specs.Kinds.{kind_number};
ghost use Rattle.message_table.specs.Table.{is_read};
ghost use Rattle.ranges.specs.Ranges.{plans_ranged};
ghost use Rattle.ranges.specs.Ranged.{PlanRanges};
ghost use Rattle.refusal.specs.Refusals.{request_of};
ghost use Rattle.answers.specs.Answered.{Handles};
ghost use Rattle.protocol.specs.Handlers.{DoneBy};
ghost use Rattle.record_steps.specs.Doing.{plan_among, plan_done, message_done, timer_done};
ghost use Rattle.upload.specs.Turns.{ack_turned};
ghost use Rattle.places.specs.Forms.{Store, words};
ghost use Rattle.plan.specs.declared.Plan.{Plan};

use answers::{Handled, ack, only, told};
use clears::{Covered, clear};
use item::ReadItem;
use limits::{Fault, Kind, NoKind};
use places::size_of;
use plan::{Plan, Station, flown};
use taking::take_item;
use upload::Effect;
use upload::turns::{on_ack, on_count, on_partial, on_timer};
use upload::uploads::station_of;
use wire::{
    ACK_ID, CLEAR_ALL_ID, COUNT_ID, OWN_BYTES, PARTIAL_LIST_ID, REQUEST_INT_ID, REQUEST_LIST_ID,
    SET_CURRENT_ID,
};

// What an ACK does, which is never answered. One of a kind above the last does nothing.
fn acknowledged(plans: &[Plan; 3], kind: u8, res: u8, from: Station) -> Effect
    ensures { result ≡ (ack_turned (plan_among plans.now kind) (station from.system from.component) res).effect }
{
    match Kind::try_from(kind) {
        Ok(known) => on_ack(plans[known as usize], from, res).effect,
        Err(NoKind) => Effect::Nothing,
    }
}

// The messages that speak of the plan of a kind: MISSION_WRITE_PARTIAL_LIST, REQUEST_LIST, COUNT, REQUEST_INT and ITEM_INT.
#[tactic(auto, unfolding(record_steps::specs::Doing::plan_done, rules::specs::Messages::decode, rules::specs::Messages::message_of))]
fn turn(
    home: bool,
    plan: Plan,
    current: u16,
    store: &mut [u32],
    reply: &mut [u8],
    kind: Kind,
    from: Station,
    id: u32,
    own: &[u8; OWN_BYTES],
    clock: u32,
) -> Handled
    requires in_range { PlanRanges (kind_number kind) plan × (store_words ≤ length store.old) × (reply_bytes_min ≤ length reply.old) }
    requires own_value { (is_read (decode id own.now) ≡ true) × (id ≡ set_current_id → ⊥) × (id ≡ clear_all_id → ⊥) × (id ≡ ack_id → ⊥) }
    ensures { DoneBy (plan_done words home plan current store.old (station from.system from.component) clock (kind_number kind) (request_of (decode id own.now))) store.new reply.old reply.new result }
{
    let number = kind.number();
    match id {
        REQUEST_LIST_ID => only(Some(shown::list(plan, number, from, reply))),
        COUNT_ID => {
            let m = wire::read_count(own);
            let turned = on_count(plan, from, clock, m.count, size_of(number));
            told(turned, number, from, reply)
        }
        PARTIAL_LIST_ID => {
            let m = wire::read_partial_list(own);
            let turned = on_partial(plan, from, clock, m.start, m.end);
            told(turned, number, from, reply)
        }
        REQUEST_INT_ID => {
            let m = wire::read_request_int(own);
            only(Some(shown::request(plan, current, store, kind, m.seq, from, reply)))
        }
        // ITEM_INT is the only other message that is read here.
        _ => {
            let plain = wire::read_item_int(own).item;
            let turned = take_item(home, plan, store, kind, from, clock, ReadItem { plain });
            told(turned, number, from, reply)
        }
    }
}

// A message from a station, its kind first: 255 only in CLEAR_ALL, and an ACK never gets a reply, whatever its kind. Item 0 of the flight plan may be home.
#[tactic(auto, using(crate::proofs::Requests::says_nothing), unfolding(record_steps::specs::Doing::message_done, record_steps::specs::Doing::known_done, record_steps::specs::Doing::plan_done, rules::specs::Messages::decode, rules::specs::Messages::message_of))]
pub fn answer(
    home: bool,
    plans: &[Plan; 3],
    current: u16,
    store: &mut [u32],
    reply: &mut [u8],
    kind: u8,
    from: Station,
    id: u32,
    own: &[u8; OWN_BYTES],
    clock: u32,
) -> Handled
    requires { (plans_ranged (plan_among plans.now flight) (plan_among plans.now fence) (plan_among plans.now rally) ≡ true) × (store_words ≤ length store.old) × (reply_bytes_min ≤ length reply.old) × (is_read (decode id own.now) ≡ true) }
    ensures { DoneBy (message_done words home plans.now current store.old (station from.system from.component) clock kind (request_of (decode id own.now))) store.new reply.old reply.new result }
{
    match (id, Covered::try_from(kind)) {
        (ACK_ID, _) => {
            let m = wire::read_ack(own);
            Handled {
                effect: acknowledged(plans, kind, m.result, from),
                reply: None,
            }
        }
        (CLEAR_ALL_ID, Ok(covered)) => clear(plans, covered, from, reply),
        (SET_CURRENT_ID, Ok(Covered::Of(_))) => {
            let m = wire::read_set_current(own);
            shown::set_current(plans, flown(home, m.seq), reply)
        }
        (_, Ok(Covered::Of(known))) => turn(
            home,
            plans[known as usize],
            current,
            store,
            reply,
            known,
            from,
            id,
            own,
            clock,
        ),
        _ => only(Some(ack(Err(Fault::Unsupported), kind, from, reply))),
    }
}

// A timer call of a kind's plan: its reply goes to the upload's station.
#[tactic(auto, unfolding(record_steps::specs::Doing::timer_done))]
pub fn expire(plan: Plan, kind: u8, clock: u32, reply: &mut [u8]) -> Handled
    requires { reply_bytes_min ≤ length reply.old }
    ensures { (store : Store) → Handles (timer_done plan store clock kind).effect (timer_done plan store clock kind).answer reply.old reply.new result }
{
    let to = station_of(plan.upload);
    told(on_timer(plan, clock), kind, to, reply)
}

// The messages that ask for what is shown, and SET_CURRENT, which chooses among it.
#![tactic(auto)]

ghost use Rattle.std.specs.Prelude.{◌≡◌, ◌≤◌, length, Some};
ghost use Rattle.rules.specs.Limits.{flight, fence, rally, size_of, store_words, reply_bytes_min};
ghost use Rattle.rules.specs.Messages.{station};
ghost use Rattle.rules.specs.Step.{current_field};
ghost use Rattle.limits.specs.Kinds.{kind_number};
ghost use Rattle.answers.specs.Answered.{Spoken, Handles};
ghost use Rattle.record_steps.specs.Shown.{list_answer, request_answer, choose_effect, choose_answer};
ghost use Rattle.record_steps.specs.Doing.{plan_among};
ghost use Rattle.places.specs.Forms.{words};

use answers::{Handled, Reply, ack, only, reply_with};
use limits::{Fault, Kind};
use places::Items;
use plan::{Plan, Station, number_shown};
use upload::Effect;

// REQUEST_LIST: the length of the plan and its number.
pub fn list(plan: Plan, kind: u8, to: Station, reply: &mut [u8]) -> Reply
    requires { reply_bytes_min ≤ length reply.old }
    ensures { Spoken (list_answer plan (station to.system to.component) kind) reply.old reply.new (Some result) }
{
    let message = wire::Count {
        count: plan.len,
        system: to.system,
        component: to.component,
        kind,
        number: number_shown(plan),
    };
    reply_with(message, reply)
}

// The current field of an item: 1 exactly for the flight item that is current.
fn current_field(kind: Kind, seq: u16, current: u16) -> u8
    ensures { result ≡ current_field (kind_number kind) seq current }
{
    ((kind == Kind::Flight) & (seq == current)) as u8
}

// REQUEST_INT: the stored item as of now.
pub fn request(
    plan: Plan,
    current: u16,
    store: &[u32],
    kind: Kind,
    seq: u16,
    to: Station,
    reply: &mut [u8],
) -> Reply
    requires { (plan.len ≤ size_of (kind_number kind)) × (store_words ≤ length store.now) × (reply_bytes_min ≤ length reply.old) }
    ensures { Spoken (request_answer words plan current store.now (station to.system to.component) (kind_number kind) seq) reply.old reply.new (Some result) }
{
    if plan.len <= seq {
        return ack(Err(Fault::InvalidSequence), kind.number(), to, reply);
    }
    let items = Items {
        store,
        kind,
        half: plan.half,
    };
    let item = storage::fetch(items, seq);
    let message = wire::ItemInt {
        system: to.system,
        component: to.component,
        current: current_field(kind, seq, current),
        item,
    };
    reply_with(message, reply)
}

// SET_CURRENT: an item of the flight plan becomes current, and CURRENT is written; of an item that is not there a text says so.
pub fn set_current(plans: &[Plan; 3], seq: u16, reply: &mut [u8]) -> Handled
    requires { reply_bytes_min ≤ length reply.old }
    ensures { Handles (choose_effect (plan_among plans.now flight) seq) (choose_answer (plan_among plans.now flight) (plan_among plans.now fence) (plan_among plans.now rally) seq) reply.old reply.new result }
{
    let [flight, fence, rally] = *plans;
    if seq < flight.len {
        let message = wire::Current {
            seq,
            total: flight.len,
            state: 0,
            mode: 0,
            mission: number_shown(flight),
            fence: number_shown(fence),
            rally: number_shown(rally),
        };
        return Handled {
            effect: Effect::Chooses(seq),
            reply: Some(reply_with(message, reply)),
        };
    }
    only(Some(reply_with(reply::no_such_item(), reply)))
}

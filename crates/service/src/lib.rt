// The drone's mission service: a fresh start, a message, a timer call and "command done". These are its only public calls; none asks anything of its
// caller, and of the functions below them none takes or gives the state, which `ranges::ranged` is lent for reading. What each promises is `Serves` of own_calls/specs/Calls.antt, over the rules' own step.
#![tactic(auto)]

ghost use Rattle.std.specs.Prelude.{◌≡◌, ◌≤◌, length};
ghost use Rattle.rules.specs.Limits as limits;
ghost use Rattle.rules.specs.Limits.{kinds};
ghost use Rattle.rules.specs.Messages.{station};
ghost use Rattle.rules.specs.Calls as calls;
ghost use Rattle.plan.specs.declared.Plan.{Plan};
ghost use Rattle.upload.specs.Effects.{applied};
ghost use Rattle.own_calls.specs.Calls.{Serves, served_result};

use limits::{FLIGHT, JUMP_COUNTS};
use message_table::receive;
use plan::{State, Station};
use protocol::answer;
use ranges::ranged;
use refusal::message_refusal;
use upload::Effect;
use upload::updates::emptied;

// A fresh start: every plan empty, item 0 the current one and not begun; whether it is home is chosen here, and nothing changes it later.
pub use plan::fresh;

// A timer call and "command done", and what the calls return.
pub use own_calls::{Advanced, Served, advance, timer};

// What a handler did, put into the state. A plan that is put in is of a known kind.
fn apply(state: &mut State, kind: u8, effect: Effect)
    requires three { length state.old.plans ≡ length kinds }
    requires turned { (p : Plan) → effect ≡ Effect.Turns p → kind ≤ limits.rally }
    requires renewed { (p : Plan) → effect ≡ Effect.Renews p → kind ≤ limits.rally }
    requires changed { (p : Plan) → effect ≡ Effect.Changes p → kind ≤ limits.rally }
    ensures { state.new ≡ applied state.old kind effect }
{
    let k = kind as usize;
    match effect {
        Effect::Nothing => {}
        Effect::Turns(plan) => {
            state.plans[k] = plan;
        }
        Effect::Renews(plan) => {
            state.plans[k] = plan;
            if kind == FLIGHT {
                *state = State {
                    plans: state.plans,
                    ..fresh(state.home)
                };
            }
        }
        Effect::Changes(plan) => {
            state.plans[k] = plan;
            if kind == FLIGHT {
                state.counts = [0; JUMP_COUNTS];
            }
        }
        Effect::EmptiesAll => {
            *state = State {
                plans: state.plans.map(emptied),
                ..fresh(state.home)
            };
        }
        Effect::Chooses(seq) => {
            state.current = seq;
            state.begun = false;
        }
    }
}

// A message call. Its parameters are as the public call has them, stations as two numbers each. Wrong answers that this rules out: refusing everything, and a reply that goes to another station than the sender.
pub fn message(
    mut state: State,
    store: &mut [u32],
    reply: &mut [u8],
    own_system: u8,
    own_component: u8,
    system: u8,
    component: u8,
    id: u32,
    payload: &[u8],
    clock: u32,
) -> Served
    ensures { Serves (calls.message (station own_system own_component) (station system component) id payload.now clock (length store.old) (length reply.old)) state store.old store.new reply.old reply.new (served_result result) }
{
    let in_range = ranged(&state);
    let received = receive(id, payload);
    let verdict = message_refusal(
        in_range,
        store.len(),
        reply.len(),
        own_system,
        own_component,
        payload.len(),
        received,
    );
    let got = match verdict {
        Ok(got) => got,
        Err(refusal) => {
            return Served {
                state,
                answer: Err(refusal),
            };
        }
    };
    let from = Station { system, component };
    let kind = got.head.kind;
    let done = answer(
        state.home,
        &state.plans,
        state.current,
        store,
        reply,
        kind,
        from,
        id,
        &got.own,
        clock,
    );
    apply(&mut state, kind, done.effect);
    Served {
        state,
        answer: Ok(done.reply),
    }
}

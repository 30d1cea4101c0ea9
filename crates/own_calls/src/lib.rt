// The calls that the drone's own program makes, a timer call and "command done", and what a call returns. None asks anything of its caller. What each promises is
// `Serves` of specs/Calls.antt, over the rules' own step.
#![tactic(auto)]

ghost use Rattle.std.specs.Prelude.{◌≡◌, ◌<◌, [], length};
ghost use Rattle.rules.specs.Limits.{kinds};
ghost use Rattle.rules.specs.Calls as calls;
ghost use Rattle.limits.specs.Kinds.{kind_number};
ghost use Rattle.own_calls.specs.Calls.{Serves, answer_outcome, answer_id, answer_len, advance_outcome, advance_command, served_result, advance_result};

use answers::Reply;
use command::Command;
use limits::{Kind, NO_REPLY, Refusal};
use plan::State;
use protocol::expire;
use ranges::ranged;
use refusal::{done_refusal, timer_refusal};
use upload::Effect;

// The outcome of a call that replied.
pub const REPLIED: u8 = 0;

// What a message or a timer call returns beside the store and the reply buffer: the state after it, and the reply, where there is one, or why it is refused.
#[derive(Clone, Copy)]
pub struct Served {
    pub state: State,
    pub answer: Result<Option<Reply>, Refusal>,
}

// The numbers that a call returns.
impl Served {
    // The outcome.
    pub fn outcome(&self) -> u8
        ensures { result ≡ answer_outcome self.now.answer }
    {
        match self.answer {
            Ok(Some(_)) => REPLIED,
            Ok(None) => NO_REPLY,
            Err(refusal) => refusal.code(),
        }
    }

    // The reply's id; 0 without one.
    pub fn id(&self) -> u32
        ensures { result ≡ answer_id self.now.answer }
    {
        match self.answer {
            Ok(Some(reply)) => reply.id,
            _ => 0,
        }
    }

    // The reply's length; 0 without one.
    pub fn len(&self) -> usize
        ensures { result ≡ answer_len self.now.answer }
    {
        match self.answer {
            Ok(Some(reply)) => reply.len,
            _ => 0,
        }
    }
}

// What a "command done" call returns: the state after it, and the command, or why it is refused.
#[derive(Clone, Copy)]
pub struct Advanced {
    pub state: State,
    pub answer: Result<Command, Refusal>,
}

impl Advanced {
    // The outcome: no reply is written.
    pub fn outcome(&self) -> u8
        ensures { result ≡ advance_outcome self.now.answer }
    {
        match self.answer {
            Ok(_) => NO_REPLY,
            Err(reason) => reason.code(),
        }
    }

    // The command; Stuck where the call is refused.
    pub fn command(&self) -> Command
        ensures { result ≡ advance_command self.now.answer }
    {
        self.answer.unwrap_or(Command::Stuck)
    }
}

// The place of a kind's plan among the plans.
fn place_of(kind: Kind) -> usize
    ensures { (result ≡ kind_number kind) × (result < length kinds) }
{
    kind as usize
}

// A timer call for one kind. Wrong answers that this rules out: refusing everything, and expiries by another clock than the one handed in.
pub fn timer(mut state: State, store: &[u32], reply: &mut [u8], kind: u8, clock: u32) -> Served
    ensures { Serves (calls.timer kind clock (length store.now) (length reply.old)) state store.now store.now reply.old reply.new (served_result result) }
{
    let in_range = ranged(&state);
    let verdict = timer_refusal(in_range, store.len(), reply.len(), kind);
    let known = match verdict {
        Ok(known) => known,
        Err(refusal) => {
            return Served {
                state,
                answer: Err(refusal),
            };
        }
    };
    let k = place_of(known);
    let done = expire(state.plans[k], kind, clock, reply);
    if let Effect::Turns(plan) = done.effect {
        state.plans[k] = plan;
    }
    Served {
        state,
        answer: Ok(done.reply),
    }
}

// A "command done" call. Wrong answers that this rules out: an answer without moving on to its item, and outcome 0, as if a message had been written.
pub fn advance(mut state: State, store: &[u32]) -> Advanced
    ensures { Serves (calls.done (length store.now)) state store.now store.now [] [] (advance_result result) }
{
    let in_range = ranged(&state);
    if let Err(refusal) = done_refusal(in_range, store.len()) {
        return Advanced {
            state,
            answer: Err(refusal),
        };
    }
    let found = next_command::next(
        state.home,
        store,
        state.plans[Kind::Flight as usize],
        state.current,
        state.begun,
        state.counts,
    );
    if let Some(stand) = found.stand {
        let runs = stand.counts;
        state.current = stand.n;
        state.begun = true;
        state.counts = runs;
    }
    Advanced {
        state,
        answer: Ok(found.command),
    }
}

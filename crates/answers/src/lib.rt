// What a call answers: its effect on the state, and what is said back, to a station and about a kind, with the reply written.
#![tactic(auto)]

ghost use Rattle.std.specs.Prelude.{◌≡◌, ◌≤◌, length, Some};
ghost use Rattle.rules.specs.Limits.{reply_bytes_min};
ghost use Rattle.rules.specs.Messages.{station};
ghost use Rattle.rules.specs.Messages as rules;
ghost use Rattle.rules.specs.Step.{says};
ghost use Rattle.record_steps.specs.Answers.{answer_of};
ghost use Rattle.answers.specs.Answered.{Spoken, Handles};

use limits::{ACCEPTED, Fault};
use payloads::Written;
use plan::Station;
use upload::{Effect, Say, Turned};

// A reply that was written: its message's id, and its length.
#[derive(Clone, Copy)]
pub struct Reply {
    pub id: u32,
    pub len: usize,
}

// What was done, and the reply, where there is one.
#[derive(Clone, Copy)]
pub struct Handled {
    pub effect: Effect,
    pub reply: Option<Reply>,
}

// A message, written as the reply. Here and above each function asks for a buffer that is long enough: contracts tell of its bytes before and after, so that a
// struct round the lent slice would be made for every call and taken apart again.
pub fn reply_with<M: Written>(message: M, reply: &mut [u8]) -> Reply
    requires { reply_bytes_min ≤ length reply.old }
    ensures { Spoken (says (M.message message)) reply.old reply.new (Some result) }
{
    Reply {
        id: M::ID,
        len: reply::write(message, reply),
    }
}

// An ACK of a result, with a number beside it, about a kind: each as it is given.
pub fn ack_of(res: u8, number: u32, kind: u8, to: Station, reply: &mut [u8]) -> Reply
    requires { reply_bytes_min ≤ length reply.old }
    ensures { Spoken (says (rules.ack (station to.system to.component) res kind number)) reply.old reply.new (Some result) }
{
    let message = wire::Ack {
        system: to.system,
        component: to.component,
        result: res,
        kind,
        number,
    };
    reply_with(message, reply)
}

// An ACK that accepts, with a plan number, or says a fault.
pub fn ack(res: Result<u32, Fault>, kind: u8, to: Station, reply: &mut [u8]) -> Reply
    requires { reply_bytes_min ≤ length reply.old }
    ensures { Spoken (answer_of (Say.Ack res) (station to.system to.component) kind) reply.old reply.new (Some result) }
{
    match res {
        Ok(number) => ack_of(ACCEPTED, number, kind, to, reply),
        Err(fault) => ack_of(fault.code(), 0, kind, to, reply),
    }
}

// What is said, written as the reply, where anything is.
pub fn speak(what: Say, kind: u8, to: Station, reply: &mut [u8]) -> Option<Reply>
    requires { reply_bytes_min ≤ length reply.old }
    ensures { Spoken (answer_of what (station to.system to.component) kind) reply.old reply.new result }
{
    match what {
        Say::Silent => None,
        Say::Ack(res) => Some(ack(res, kind, to, reply)),
        Say::AckOf(res, number) => Some(ack_of(res, number, kind, to, reply)),
        Say::Ask(seq) => {
            let message = wire::RequestInt {
                seq,
                system: to.system,
                component: to.component,
                kind,
            };
            Some(reply_with(message, reply))
        }
    }
}

// What a handler does that at most replies.
pub fn only(reply: Option<Reply>) -> Handled
    ensures { result ≡ record { effect = Effect.Nothing; reply = reply } }
{
    Handled {
        effect: Effect::Nothing,
        reply,
    }
}

// What a handler of one plan does, and what it says to a station.
pub fn told(turned: Turned, kind: u8, to: Station, reply: &mut [u8]) -> Handled
    requires { reply_bytes_min ≤ length reply.old }
    ensures { Handles turned.effect (answer_of turned.say (station to.system to.component) kind) reply.old reply.new result }
{
    let reply = speak(turned.say, kind, to, reply);
    Handled {
        effect: turned.effect,
        reply,
    }
}

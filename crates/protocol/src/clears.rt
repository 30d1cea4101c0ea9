// CLEAR_ALL, over the plans of the three kinds.
ghost use Rattle.std.specs.Prelude.{◌≡◌, ◌≤◌, length};
ghost use Rattle.rules.specs.Limits.{reply_bytes_min};
ghost use Rattle.rules.specs.Messages.{station};
ghost use Rattle.rules.specs.Step.{covered};
ghost use Rattle.protocol.specs.Covers.{covered_number, IsCovered};
ghost use Rattle.protocol.specs.Handlers.{DoneBy};
ghost use Rattle.record_steps.specs.Doing.{others_among, clear_effect, clear_done};
ghost use Rattle.places.specs.Forms.{Store};

use answers::{Handled, ack, only};
use limits::{EVERY_KIND, Fault, Kind, NoKind};
use plan::{Plan, Station};
use upload::Effect;
use upload::updates::emptied;
use upload::uploads::others_upload;

// What a message's kind covers: one kind, or every one for 255.
#[derive(Clone, Copy)]
pub enum Covered {
    Of(Kind),
    Every,
}

impl Covered {
    // The number in a message.
    fn number(self) -> u8
        ensures { result ≡ covered_number self }
    {
        match self {
            Covered::Of(kind) => kind.number(),
            Covered::Every => EVERY_KIND,
        }
    }
}

impl TryFrom<u8> for Covered {
    type Error = NoKind;

    ghost try_from_gives = { IsCovered };

    fn try_from(n: u8) -> Result<Covered, NoKind> {
        if n == EVERY_KIND {
            return Ok(Covered::Every);
        }
        Ok(Covered::Of(Kind::try_from(n)?))
    }
}

// Whether another station has an upload of a kind that a clear covers.
fn others_among(plans: &[Plan; 3], from: Station, kinds: Covered) -> bool
    ensures { result ≡ others_among plans.now (station from.system from.component) (covered (covered_number kinds)) }
{
    match kinds {
        Covered::Of(kind) => others_upload(plans[kind as usize].upload, from),
        Covered::Every => plans.iter().any(|plan| others_upload(plan.upload, from)),
    }
}

// What a clear empties.
fn empties(plans: &[Plan; 3], kinds: Covered) -> Effect
    ensures { result ≡ clear_effect plans.now (covered_number kinds) }
{
    match kinds {
        Covered::Of(kind) => Effect::Renews(emptied(plans[kind as usize])),
        Covered::Every => Effect::EmptiesAll,
    }
}

// CLEAR_ALL: the ACK has the kind that was sent.
#[tactic(auto, unfolding(record_steps::specs::Doing::clear_done))]
pub fn clear(plans: &[Plan; 3], kinds: Covered, from: Station, reply: &mut [u8]) -> Handled
    requires { reply_bytes_min ≤ length reply.old }
    ensures { (store : Store) → DoneBy (clear_done plans.now store (station from.system from.component) (covered_number kinds)) store reply.old reply.new result }
{
    let kind = kinds.number();
    if others_among(plans, from, kinds) {
        return only(Some(ack(Err(Fault::Denied), kind, from, reply)));
    }
    let accepted = ack(Ok(0), kind, from, reply);
    Handled {
        effect: empties(plans, kinds),
        reply: Some(accepted),
    }
}

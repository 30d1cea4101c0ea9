// One function for each update of a plan, and for each answer of a handler.
ghost use Rattle.std.specs.Prelude.{◌≡◌};
ghost use Rattle.upload.specs.Turns.{with_upload, ended, emptied, replaced, keeps, moves, renews, puts_in};

use super::counters::next_number;
use super::{Effect, Say, Turned};
use plan::{Plan, Run};

// The plan with another upload.
pub fn with_upload(plan: Plan, upload: Option<Run>) -> Plan
    ensures { result ≡ with_upload plan upload }
{
    Plan { upload, ..plan }
}

// The plan without an upload.
pub fn ended(plan: Plan) -> Plan
    ensures { result ≡ ended plan }
{
    with_upload(plan, None)
}

// The plan without items and without an upload; its half and its number stay.
pub fn emptied(plan: Plan) -> Plan
    ensures { result ≡ emptied plan }
{
    Plan {
        len: 0,
        upload: None,
        ..plan
    }
}

// The plan of `len` items in the other half, with the next number and no upload.
pub fn replaced(plan: Plan, len: u16) -> Plan
    ensures { result ≡ replaced plan len }
{
    Plan {
        len,
        half: !plan.half,
        number: next_number(plan.number),
        upload: None,
    }
}

// The answer of a handler that changes nothing.
pub fn keeps(say: Say) -> Turned
    ensures { result ≡ keeps say }
{
    Turned {
        effect: Effect::Nothing,
        say,
    }
}

// The answer with a plan that was neither replaced nor emptied.
pub fn moves(plan: Plan, say: Say) -> Turned
    ensures { result ≡ moves plan say }
{
    Turned {
        effect: Effect::Turns(plan),
        say,
    }
}

// The answer with a plan that was replaced or emptied.
pub fn renews(plan: Plan, say: Say) -> Turned
    ensures { result ≡ renews plan say }
{
    Turned {
        effect: Effect::Renews(plan),
        say,
    }
}

// The answer with a plan that was put in: all of it, or with a part changed.
pub fn puts_in(partial: bool, plan: Plan, say: Say) -> Turned
    ensures { result ≡ puts_in partial plan say }
{
    if partial {
        return Turned {
            effect: Effect::Changes(plan),
            say,
        };
    }
    renews(plan, say)
}

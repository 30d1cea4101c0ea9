// The next command: what a "command done" call answers, and the item and the jump counts after it. Looking at the items is left to the crate plan_search,
// following jumps is in find.
#![tactic(auto)]

mod find;

ghost use Rattle.std.specs.Prelude.{◌≡◌, cond, ◌+◌, ◌≤◌, ◌<◌, length};
ghost use Rattle.rules.specs.Limits.{flight, size_of, store_words, max_followed};
ghost use Rattle.rules.specs.Model as rules;
ghost use Rattle.rules.specs.NextCommand.{search};
ghost use Rattle.places.specs.Forms.{words, items_in};
ghost use Rattle.next_command.specs.Finding.{found_of};

pub use find::{Found, Stand};
use limits::{JUMP_COUNTS, Kind};
use places::Items;
use plan::{Plan, flown};
use plan_search::Flight;

// The item at which the search would begin, if item 0 were like any other.
fn start(current: u16, begun: bool) -> u16
    requires { current < size_of flight }
    ensures { (result ≡ cond begun (current + 1) current) × (result ≤ size_of flight) }
{
    if begun {
        return current + 1;
    }
    current
}

// What a "command done" call finds in the flight plan, from the current item on, or from the one behind it if it is begun. Home is not flown.
// It is handed the state's parts one by one, since none but the public calls are handed a state.
pub fn next(
    home: bool,
    store: &[u32],
    plan: Plan,
    current: u16,
    begun: bool,
    counts: [u16; JUMP_COUNTS],
) -> Found
    requires { (store_words ≤ length store.now) × (plan.len ≤ size_of flight) × (current < size_of flight) }
    ensures { found_of result ≡ search home max_followed (items_in words store.now plan.half flight plan.len) counts (rules.flown home (cond begun (current + 1) current)) }
{
    let from = flown(home, start(current, begun));
    let items = Items {
        store,
        kind: Kind::Flight,
        half: plan.half,
    };
    let plan = Flight {
        home,
        items,
        len: plan.len,
    };
    find::find(plan, counts, from)
}

// The lines of a dump: the plans and uploads of each kind, the current item, and whether item 0 is home.
#![tactic(auto)]

mod plans;

ghost use Rattle.std.specs.Prelude.{◌≡◌};
ghost use Rattle.rules.specs.Model.{in_range};
ghost use Rattle.places.specs.Forms.{Store};
ghost use Rattle.plan.specs.View.{view};
ghost use Rattle.adding.specs.Added.{Adds};
ghost use Rattle.dump.specs.Dumps.{current_line, home_line, state_text, dump_text};

use limits::{JUMP_COUNTS, Kind, Refusal};
use plan::State;
use plans::put_kind;
use text::Text;

// The current item, whether it is begun, and the jump counts.
fn put_current(text: &mut Text, current: u16, begun: bool, counts: [u16; JUMP_COUNTS])
    ensures { Adds (current_line current begun counts) text.old text.new }
{
    rows::put_begun(text, b'c', &[current as u64, begun as u64]);
    text::put_numbers(text, &counts);
    text.put_byte(b'\n');
}

// Where item 0 is home a line says so; without the setting nothing is put.
#[tactic(auto, unfolding(crate::specs::Dumps::home_line))]
fn put_home(text: &mut Text, home: bool)
    ensures { Adds (home_line home) text.old text.new }
{
    if home {
        rows::put_row(text, b'h', &[1]);
    }
}

fn put_state(text: &mut Text, halves: bool, state: State, store: &[u32])
    ensures { Adds (state_text halves state store.now) text.old text.new }
{
    let [flight, fence, rally] = state.plans;
    put_kind(text, halves, Kind::Flight, flight, store);
    put_kind(text, halves, Kind::Fence, fence, store);
    put_kind(text, halves, Kind::Rally, rally, store);
    let counts = state.counts;
    put_current(text, state.current, state.begun, counts);
    put_home(text, state.home);
}

// Whether every number of a state is in its range, whatever the store holds.
fn in_range(state: State) -> bool
    ensures { (store : Store) → result ≡ in_range (view state store) }
{
    ranges::ranged(&state)
}

// The whole dump; the refusal alone where a number of the state is out of its range. The options are a record's byte, which may be any: with its lowest bit set
// no halves are told.
pub fn put_dump(text: &mut Text, options: u8, state: State, store: &[u32])
    ensures { Adds (dump_text options state store.now) text.old text.new }
{
    if !in_range(state) {
        rows::put_row(text, b'D', &[Refusal::OutOfRange.code() as u64]);
        return;
    }
    rows::put_row(text, b'D', &[0]);
    put_state(text, options % 2 == 0, state, store);
}

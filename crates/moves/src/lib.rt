// The one-time move of M-106: the three plans from a store of bytes to the store of words.
#![tactic(auto)]

ghost use Rattle.std.specs.Prelude.{◌≡◌, true, ◌≤◌, ◌<◌, length};
ghost use Rattle.rules.specs.Limits.{flight, fence, rally, size_of};
ghost use Rattle.rules.specs.Messages.{item_in};
ghost use Rattle.limits.specs.Kinds.{kind_number};
ghost use Rattle.item.specs.Patterns.{item_for};
ghost use Rattle.places.specs.Forms.{words, bytes, least, offset_of, item_at};
ghost use Rattle.plan.specs.View.{plan_of};
ghost use Rattle.ranges.specs.Ranges.{plans_ranged};
ghost use Rattle.moves.specs.Moves.{outcome_of, move_outcome, MovesToWords};
ghost use Rattle.moves.specs.Moving.{moved_items, moved_plans};

use item::Item;
use limits::{ITEM_BYTES, Kind, NO_REPLY, Refusal, STORE_WORDS};
use places::item_place;
use plan::State;
use ranges::ranged;
use storage::keep;
use upload::updates::ended;

// What the move returns beside the stores: the state after it, and whether it was refused.
#[derive(Clone, Copy)]
pub struct Moved {
    pub state: State,
    pub moved: Result<(), Refusal>,
}

impl Moved {
    // 1 where the plans are moved.
    pub fn outcome(self) -> u8
        ensures { result ≡ move_outcome self.moved }
    {
        match self.moved {
            Ok(()) => NO_REPLY,
            Err(refusal) => refusal.code(),
        }
    }
}

// How long the store of bytes is at least.
const STORE_BYTES: usize = 26752;

// The byte at which the item with a number begins.
#[tactic(auto, unfolding(places::specs::Forms::offset_of, places::specs::Forms::place_of))]
fn byte_at(kind: Kind, half: bool, n: u16) -> usize
    ensures { result ≡ offset_of bytes half (kind_number kind) n }
{
    item_place(kind, half, n) as usize * ITEM_BYTES
}

// The item with a number, from its bytes.
fn old_item(old: &[u8], kind: Kind, half: bool, n: u16) -> Item
    requires { (least bytes ≤ length old.now) × (n < size_of (kind_number kind)) }
    ensures { result ≡ item_for (item_in (item_at bytes old.now half (kind_number kind) n)) }
{
    let at = byte_at(kind, half, n);
    item::item_at(&old[at..at + ITEM_BYTES])
}

// The first n items of a kind in a half go to their places among the words.
fn move_items(old: &[u8], store: &mut [u32], kind: Kind, half: bool, n: u16)
    requires { (least bytes ≤ length old.now) × (least words ≤ length store.old) × (n ≤ size_of (kind_number kind)) }
    ensures { store.new ≡ moved_items old.now store.old half (kind_number kind) n }
{
    for i in 0..n {
        let item = old_item(old, kind, half, i);
        keep(store, kind, half, i, item);
    }
}

// The items of the three plans, each in its own half.
fn move_plans(old: &[u8], store: &mut [u32], state: &State)
    requires { (least bytes ≤ length old.now) × (least words ≤ length store.old) × (plans_ranged (plan_of state.now flight) (plan_of state.now fence) (plan_of state.now rally) ≡ true) }
    ensures { store.new ≡ moved_plans old.now store.old (plan_of state.now flight) (plan_of state.now fence) (plan_of state.now rally) }
{
    let [flight, fence, rally] = state.plans;
    move_items(old, store, Kind::Flight, flight.half, flight.len);
    move_items(old, store, Kind::Fence, fence.half, fence.len);
    move_items(old, store, Kind::Rally, rally.half, rally.len);
}

// 14 if either store is too short, then 15.
fn refusal_of(ranged: bool, old_len: usize, len: usize) -> Result<(), Refusal>
    ensures { move_outcome result ≡ outcome_of ranged old_len len }
{
    if (old_len < STORE_BYTES) | (len < STORE_WORDS) {
        return Err(Refusal::ShortStore);
    }
    if !ranged {
        return Err(Refusal::OutOfRange);
    }
    Ok(())
}

// The move. Wrong answers that this rules out: a plan left behind, and an upload that goes on.
pub fn to_words(state: State, old: &[u8], store: &mut [u32]) -> Moved
    ensures { MovesToWords state old.now store.old result.state store.new (move_outcome result.moved) }
{
    if let Err(refusal) = refusal_of(ranged(&state), old.len(), store.len()) {
        return Moved {
            state,
            moved: Err(refusal),
        };
    }
    move_plans(old, store, &state);
    Moved {
        state: State {
            plans: state.plans.map(ended),
            ..state
        },
        moved: Ok(()),
    }
}

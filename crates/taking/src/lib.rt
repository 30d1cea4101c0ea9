// ITEM_INT: an item is judged, station and number first; a valid one is put into the other half of the store and taken.
#![tactic(auto)]

mod running;

ghost use Rattle.std.specs.Prelude.{◌≡◌, true, not, cond, ◌&&◌, ◌≤◌, length, drop, ◌==◌, nat_lt};
ghost use Rattle.rules.specs.Limits.{flight, fence, size_of, max_jumps, store_words};
ghost use Rattle.rules.specs.Messages.{station};
ghost use Rattle.rules.specs.Items.{is_jump, jumps_among};
ghost use Rattle.rules.specs.Fence.{fence_ok};
ghost use Rattle.rules.specs.Model.{verdict_on, whole_fault};
ghost use Rattle.limits.specs.Codes.{result_code};
ghost use Rattle.limits.specs.Kinds.{kind_number};
ghost use Rattle.item.specs.Patterns.{patterns};
ghost use Rattle.places.specs.Forms.{words, items_in};
ghost use Rattle.plan.specs.View.{task_in};
ghost use Rattle.ranges.specs.Ranges.{upload_ranged};
ghost use Rattle.upload.specs.Turns.{turn_with, settled, last_turned, valid_item_turned, item_turned};
ghost use Rattle.taking.specs.Judging.{judged_as};

use fence::fence_ok;
use item::{Item, ReadItem};
use limits::{Fault, Kind, MAX_JUMPS};
use places::Items;
use plan::{Plan, Run, Station};
use running::Running;
use storage::{carry_items, keep};
use upload::updates::{ended, keeps, moves, puts_in, replaced, with_upload};
use upload::{Say, Turned};

// Each asks for a store that is long enough: it is lent anew to each, for reading or for writing, so that a struct round it would be made for every call.
impl Running {
    // How many of the first n items in the half that the plan is not in are jumps.
    fn jumps(self, store: &[u32], n: u16) -> u16
        requires { (store_words ≤ length store.now) × (n ≤ size_of (kind_number self.kind)) }
        ensures { result ≡ jumps_among (items_in words store.now (not self.plan.half) (kind_number self.kind) n) }
    {
        let items = Items {
            store,
            kind: self.kind,
            half: !self.plan.half,
        };
        items.jumps(n)
    }

    // The jumps before the next item, counted where the item is a jump of a whole upload; no other asks for room.
    fn jumps_before(self, store: &[u32], item: Item) -> u16
        requires { store_words ≤ length store.now }
        ensures { result ≡ cond (is_jump (patterns item) && not self.run.partial) (jumps_among (items_in words store.now (not self.plan.half) (kind_number self.kind) self.run.next)) 0 }
    {
        if item.is_jump() & !self.run.partial {
            return self.jumps(store, self.run.next);
        }
        0
    }

    // The result for an item as the next of the upload, whose items taken stand in the half that the plan is not in.
    fn verdict(self, home: bool, store: &[u32], item: ReadItem) -> Result<(), Fault>
        requires { store_words ≤ length store.now }
        ensures { result_code result ≡ verdict_on home (kind_number self.kind) (task_in self.run) self.run.next (drop self.run.first (items_in words store.now (not self.plan.half) (kind_number self.kind) self.run.next)) (patterns item.plain) }
    {
        let before = self.jumps_before(store, item.plain);
        let kind = self.kind.number();
        item_rules::verdict(home, item, kind, self.run.count, self.run.next, before)
    }

    // An item from a station: Ok where it is valid and the next; otherwise what it does, which leaves the store as it is.
    #[tactic(auto, using(crate::proofs::Faults::is_accepted), unfolding(crate::specs::Judging::judged_as))]
    fn judge(self, home: bool, store: &[u32], from: Station, item: ReadItem) -> Result<(), Turned>
        requires { store_words ≤ length store.now }
        ensures { result ≡ judged_as home store.now (kind_number self.kind) self.plan self.run (station from.system from.component) (patterns item.plain) }
    {
        if from != self.run.from {
            return Err(keeps(Say::Ack(Err(Fault::Denied))));
        }
        if item.plain.seq != self.run.next {
            return Err(keeps(Say::Ask(self.run.next)));
        }
        if let Err(fault) = self.verdict(home, store, item) {
            return Err(moves(ended(self.plan), Say::Ack(Err(fault))));
        }
        Ok(())
    }

    // The upload has its last item: to those of a part the plan's other items are put, from the half that the plan stands in.
    #[tactic(auto, unfolding(upload::specs::Turns::settled, places::specs::Carried::filled))]
    fn settle(self, store: &mut [u32])
        requires { store_words ≤ length store.old }
        ensures { store.new ≡ settled words store.old (kind_number self.kind) self.plan self.run }
    {
        if self.run.partial {
            carry_items(store, self.kind, self.plan.half, 0, self.run.first);
            carry_items(
                store,
                self.kind,
                self.plan.half,
                self.run.last + 1,
                self.run.count,
            );
        }
    }

    // Whether a flight plan with a part changed has jumps too many.
    fn too_many_jumps(self, store: &[u32]) -> bool
        requires { store_words ≤ length store.now }
        ensures { result ≡ (self.run.partial && (kind_number self.kind == flight) && nat_lt max_jumps (jumps_among (items_in words store.now (not self.plan.half) (kind_number self.kind) self.run.count))) }
    {
        self.run.partial
            && self.kind == Kind::Flight
            && MAX_JUMPS < self.jumps(store, self.run.count)
    }

    // Whether a fence breaks its rule.
    fn breaks_fence(self, store: &[u32]) -> bool
        requires { store_words ≤ length store.now }
        ensures { result ≡ ((kind_number self.kind == fence) && not (fence_ok (items_in words store.now (not self.plan.half) (kind_number self.kind) self.run.count))) }
    {
        self.kind == Kind::Fence && !fence_ok(store, !self.plan.half, self.run.count)
    }

    // The result for the items of the upload as a whole, with those that a part leaves.
    #[tactic(auto, unfolding(rules::specs::Model::whole_fault))]
    fn whole_fault(self, store: &[u32]) -> Result<(), Fault>
        requires { store_words ≤ length store.now }
        ensures { result_code result ≡ whole_fault (kind_number self.kind) (task_in self.run) (items_in words store.now (not self.plan.half) (kind_number self.kind) self.run.count) }
    {
        if self.too_many_jumps(store) {
            return Err(Fault::NoSpace);
        }
        if self.breaks_fence(store) {
            return Err(Fault::Invalid);
        }
        Ok(())
    }

    // The upload's last item is in the store: the plan is replaced, or the whole is refused.
    fn last_turn(self, store: &mut [u32]) -> Turned
        requires { store_words ≤ length store.old }
        ensures { turn_with result store.new ≡ turn_with (last_turned words (settled words store.old (kind_number self.kind) self.plan self.run) (kind_number self.kind) self.plan self.run) (settled words store.old (kind_number self.kind) self.plan self.run) }
    {
        self.settle(store);
        if let Err(fault) = self.whole_fault(store) {
            return moves(ended(self.plan), Say::Ack(Err(fault)));
        }
        let new = replaced(self.plan, self.run.count);
        puts_in(self.run.partial, new, Say::Ack(Ok(new.number)))
    }

    // A valid item is in the store: the next is asked for, if it is not the last.
    #[tactic(auto, unfolding(upload::specs::Turns::valid_item_turned))]
    fn valid_turn(self, store: &mut [u32], clock: u32) -> Turned
        requires { store_words ≤ length store.old }
        ensures { turn_with result store.new ≡ valid_item_turned words store.old (kind_number self.kind) self.plan self.run clock }
    {
        if self.run.next == self.run.last {
            return self.last_turn(store);
        }
        let next = self.run.next + 1;
        let more = Run {
            next,
            started: clock,
            repeats: 0,
            ..self.run
        };
        moves(with_upload(self.plan, Some(more)), Say::Ask(next))
    }
}

// ITEM_INT from a station. Only a valid item changes the store, at the upload's next place in the other half; the last of a part, at all places of the plan there.
#[tactic(auto, unfolding(upload::specs::Turns::item_turned))]
pub fn take_item(
    home: bool,
    plan: Plan,
    store: &mut [u32],
    kind: Kind,
    from: Station,
    clock: u32,
    item: ReadItem,
) -> Turned
    requires { (store_words ≤ length store.old) × (upload_ranged (size_of (kind_number kind)) plan.len plan.upload ≡ true) }
    ensures { turn_with result store.new ≡ item_turned words home store.old (kind_number kind) plan.upload plan (station from.system from.component) clock (patterns item.plain) }
{
    let Some(run) = plan.upload else {
        return keeps(Say::Ack(Err(Fault::InvalidSequence)));
    };
    let upload = Running { kind, plan, run };
    if let Err(turned) = upload.judge(home, store, from, item) {
        return turned;
    }
    keep(store, kind, !plan.half, run.next, item.plain);
    upload.valid_turn(store, clock)
}

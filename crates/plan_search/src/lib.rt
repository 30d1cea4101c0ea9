// What a search meets: the items of the flight plan from a place on, each judged, and jumps that have run as often as they repeat
// passed over.
#![tactic(auto)]

mod flight;

ghost use Rattle.std.specs.Prelude.{◌≡◌, ◌≤◌, ◌<◌, drop};
ghost use Rattle.rules.specs.Limits.{flight, size_of};
ghost use Rattle.rules.specs.Messages.{item_in};
ghost use Rattle.rules.specs.NextCommand.{command_of, meets, search_from};
ghost use Rattle.item.specs.Patterns.{patterns};
ghost use Rattle.places.specs.KindItems.{item_with};
ghost use Rattle.plan_search.specs.PlanItems.{flight_items};
ghost use Rattle.plan_search.specs.Orders.{command_for};
ghost use Rattle.rule_laws.specs.Valid.{ServoFits};
ghost use Rattle.plan_search.specs.Meeting.{met_for, look_as, jump_as};

use command::Command;
pub use flight::Flight;
use item::ReadItem;
use limits::{CHANGE_SPEED, DELAY, DISTANCE, FLIGHT, JUMP_COUNTS, SET_SERVO, YAW};

// What a search meets first that is no jump to pass over.
#[derive(Clone, Copy)]
pub enum Met {
    // The end, or an item that breaks the rules.
    Ends(Command),
    // An item that is no jump, with its answer.
    Stands(u16, Command),
    // The plan's jump with a number, its target, and whether its run is counted.
    Follows(u16, u16, bool),
}

// The answer for item n, which is no jump.
#[tactic(auto, unfolding(rules::specs::NextCommand::command_of))]
fn command_of(n: u16, item: ReadItem) -> Command
    requires { ServoFits (patterns item.plain) }
    ensures { result ≡ command_for (command_of n (patterns item.plain)) }
{
    match item.plain.command {
        DELAY => Command::Wait(n, item.param1()),
        DISTANCE => Command::Near(n, item.param1()),
        YAW => Command::Turn(n, item.param1()),
        CHANGE_SPEED => Command::Speed(n, item.param2()),
        SET_SERVO => Command::Servo(n, item.number1() as u16, item.number2() as u16),
        _ => Command::Fly(n),
    }
}

// Jump number j with a repeat and a target, after some runs; None where it is passed over. Only -1 is below 0: it is followed for ever,
// and not counted.
#[tactic(auto, unfolding(crate::specs::Meeting::jump_as, crate::specs::Meeting::is_counted, rules::specs::NextCommand::passed_over))]
fn jump_look(repeat: i32, target: u16, j: u16, runs: u16) -> Option<Met>
    ensures { result ≡ jump_as repeat target j runs }
{
    if repeat < 0 {
        return Some(Met::Follows(j, target, false));
    }
    if repeat <= runs as i32 {
        return None;
    }
    Some(Met::Follows(j, target, true))
}

impl Flight<'_> {
    // Item n with j jumps before it; None where it is a jump that is passed over.
    #[tactic(auto, using(rule_laws::specs::Valid::valid_servo, rule_laws::specs::Valid::valid_jump, rule_laws::specs::Valid::target_below), unfolding(crate::specs::Meeting::look_as))]
    fn look_at(self, counts: [u16; JUMP_COUNTS], n: u16, j: u16) -> Option<Met>
        requires { n < self.len }
        ensures { result ≡ look_as self.entry.home self.entry.len counts n j (item_in (item_with self.entry.items n)) }
    {
        let plain = storage::fetch(self.items, n);
        let item = ReadItem { plain };
        if item_rules::verdict(self.home, item, FLIGHT, self.len, n, j).is_err() {
            return Some(Met::Ends(Command::Stuck));
        }
        if !plain.is_jump() {
            return Some(Met::Stands(n, command_of(n, item)));
        }
        jump_look(item.repeat(), item.number1() as u16, j, counts[j as usize])
    }

    // From item n on, with j jumps before it.
    fn scan(self, counts: [u16; JUMP_COUNTS], from: u16, before: u16) -> Met
        requires { before ≤ from }
        ensures { result ≡ met_for (meets self.entry.home self.entry.len counts (drop from (flight_items self.entry)) from before) }
    {
        (from..self.len)
            .find_map(|n| self.look_at(counts, n, before + (n - from)))
            .unwrap_or(Met::Ends(Command::Finished))
    }

    // What a search from item n meets.
    pub fn meet(self, counts: [u16; JUMP_COUNTS], n: u16) -> Met
        requires { n ≤ size_of flight }
        ensures { result ≡ met_for (search_from self.entry.home (flight_items self.entry) counts n) }
    {
        let before = self.items.jumps(n);
        self.scan(counts, n, before)
    }
}

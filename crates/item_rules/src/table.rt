// The command table: for each command the kind it belongs to, whether it is positional, and what is asked of params 1 and 2.
ghost use Rattle.std.specs.Prelude.{◌≡◌, Some};
ghost use Rattle.std.specs.Option.{option_map};
ghost use Rattle.rules.specs.Items.{commands};
ghost use Rattle.item_rules.specs.Table.{row_of, lookup};

use limits::Kind::{self, Fence, Flight, Rally};
use limits::{CHANGE_SPEED, DELAY, DISTANCE, JUMP, RETURN_HOME, SET_SERVO, WAYPOINT, YAW};

// What is asked of a param.
#[derive(Clone, Copy)]
pub enum ParamRule {
    Anything,
    Finite,
    AtLeastZero,
    AboveZero,
    UpTo(u16),
    // Whole, from the first number to the second.
    Whole(i32, i32),
    // The same, or no value.
    WholeOrNone(i32, i32),
    // Whole, at least 0, below the count, not the item's own number; not 0 where item 0 is home.
    Target(bool),
}

// A row of the table, for the commands of one arm.
#[derive(Clone, Copy)]
pub struct Row {
    pub kind: Kind,
    pub positional: bool,
    pub param1: ParamRule,
    pub param2: ParamRule,
}

fn listed_as(kind: Kind, positional: bool, param1: ParamRule, param2: ParamRule) -> Option<Row>
    ensures { result ≡ Some (record { kind = kind; positional = positional; param1 = param1; param2 = param2 }) }
{
    Some(Row {
        kind,
        positional,
        param1,
        param2,
    })
}

// "16 to 183 belong to flight, 5000 to 5004 to fence, 5100 to rally; anything else is 3". Of a jump it matters whether item 0 is home.
pub fn row_of(home: bool, command: u16) -> Option<Row>
    ensures { option_map (row_of command) result ≡ lookup command (commands home) }
{
    match command {
        WAYPOINT | 18..=19 => listed_as(Flight, true, ParamRule::AtLeastZero, ParamRule::Anything),
        17 | 21..=22 | 31 => listed_as(Flight, true, ParamRule::Anything, ParamRule::Anything),
        RETURN_HOME => listed_as(Flight, false, ParamRule::Anything, ParamRule::Anything),
        DELAY | DISTANCE => listed_as(Flight, false, ParamRule::AtLeastZero, ParamRule::Anything),
        YAW => listed_as(Flight, false, ParamRule::UpTo(360), ParamRule::Anything),
        JUMP => listed_as(
            Flight,
            false,
            ParamRule::Target(home),
            ParamRule::WholeOrNone(-1, 32767),
        ),
        CHANGE_SPEED => listed_as(Flight, false, ParamRule::Anything, ParamRule::Finite),
        SET_SERVO => listed_as(
            Flight,
            false,
            ParamRule::Whole(1, 16),
            ParamRule::Whole(500, 2500),
        ),
        5000 => listed_as(Fence, true, ParamRule::Anything, ParamRule::Anything),
        5001..=5002 => listed_as(Fence, true, ParamRule::Whole(3, 64), ParamRule::Anything),
        5003..=5004 => listed_as(Fence, true, ParamRule::AboveZero, ParamRule::Anything),
        5100 => listed_as(Rally, true, ParamRule::Anything, ParamRule::Anything),
        _ => None,
    }
}

// The verdict on an item by document 01's rules. The command table is in table, the rules' tests one by one are in checks.
#![tactic(auto)]

mod checks;
mod table;

ghost use Rattle.std.specs.Prelude.{◌≡◌};
ghost use Rattle.rules.specs.Items.{commands, fault_among, not_home, fault};
ghost use Rattle.limits.specs.Codes.{result_code};
ghost use Rattle.item.specs.Patterns.{patterns};

use item::{Item, ReadItem};
use limits::{FLIGHT, Fault, WAYPOINT};

// An item that stands where home must stand, and is no waypoint.
fn not_home(home: bool, item: Item, kind: u8, own: u16) -> bool
    ensures { result ≡ not_home home kind own (patterns item) }
{
    home & (kind == FLIGHT) & (own == 0) & (item.command != WAYPOINT)
}

// By the command table.
fn listed_fault(
    home: bool,
    item: ReadItem,
    kind: u8,
    count: u16,
    own: u16,
    jumps: u16,
) -> Result<(), Fault>
    ensures { result_code result ≡ fault_among (commands home) kind count own jumps (patterns item.plain) }
{
    let row = table::row_of(home, item.plain.command).ok_or(Fault::Unsupported)?;
    if row.kind.number() != kind {
        return Err(Fault::Unsupported);
    }
    checks::row_fault(row, item, count, own, jumps)
}

// The first fault of an item as number `own` of a plan of `count` items of a kind, with `jumps` jumps before it. The kind is a number, since this is promised
// of every one.
pub fn verdict(
    home: bool,
    item: ReadItem,
    kind: u8,
    count: u16,
    own: u16,
    jumps: u16,
) -> Result<(), Fault>
    ensures { result_code result ≡ fault home kind count own jumps (patterns item.plain) }
{
    if not_home(home, item.plain, kind, own) {
        return Err(Fault::Unsupported);
    }
    listed_fault(home, item, kind, count, own, jumps)
}

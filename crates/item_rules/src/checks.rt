// The rules' tests of an item, one by one, and an item's first fault by a row of the command table.
ghost use Rattle.std.specs.Prelude.{◌≡◌};
ghost use Rattle.rules.specs.Limits.{accepted};
ghost use Rattle.rules.specs.Items.{frame_ok, param_ok, target_in, place_fault, room_fault, fault_in};
ghost use Rattle.rules.specs.Values.{whole_of, whole_from};
ghost use Rattle.limits.specs.Codes.{result_code};
ghost use Rattle.item.specs.Patterns.{patterns};
ghost use Rattle.item_rules.specs.Table.{rule_of, row_of};

use super::table::{ParamRule, Row};
use item::{Item, ReadItem};
use limits::{Fault, MAX_JUMPS, X_LIMIT, Y_LIMIT};

fn frame_ok(positional: bool, frame: u8) -> bool
    ensures { result ≡ frame_ok positional frame }
{
    match frame {
        0 | 3 | 5 | 6 | 10 | 11 => true,
        2 => !positional,
        _ => false,
    }
}

fn whole_within(low: i32, high: i32, x: f32) -> bool
    ensures { result ≡ whole_from low high (whole_of x) }
{
    values::whole_of(x).is_ok_and(|n| (low <= n) & (n <= high))
}

fn is_target(home: bool, count: u16, own: u16, x: f32) -> bool
    ensures { result ≡ target_in home count own (whole_of x) }
{
    values::whole_of(x).is_ok_and(|n| {
        (0 <= n) & (n < count as i32) & (n != own as i32) & !(home & (n == 0))
    })
}

fn param_ok(rule: ParamRule, count: u16, own: u16, x: f32) -> bool
    ensures { result ≡ param_ok (rule_of rule) count own x }
{
    match rule {
        ParamRule::Anything => true,
        ParamRule::Finite => values::is_finite(x),
        ParamRule::AtLeastZero => values::at_least_zero(x),
        ParamRule::AboveZero => values::above_zero(x),
        ParamRule::UpTo(limit) => values::zero_to(limit, x),
        ParamRule::Whole(low, high) => whole_within(low, high, x),
        ParamRule::WholeOrNone(low, high) => values::is_nan(x) | whole_within(low, high, x),
        ParamRule::Target(home) => is_target(home, count, own, x),
    }
}

// -2147483648 is compared, never negated.
fn place_fault(positional: bool, item: ReadItem) -> Result<(), Fault>
    ensures { result_code result ≡ place_fault positional (patterns item.plain) accepted }
{
    if !positional {
        return Ok(());
    }
    let x = item.x();
    if (x < -X_LIMIT) | (X_LIMIT < x) {
        return Err(Fault::InvalidX);
    }
    let y = item.y();
    if (y < -Y_LIMIT) | (Y_LIMIT < y) {
        return Err(Fault::InvalidY);
    }
    if !values::is_finite(item.z()) {
        return Err(Fault::InvalidZ);
    }
    Ok(())
}

fn room_fault(jumps: u16, item: Item) -> Result<(), Fault>
    ensures { result_code result ≡ room_fault jumps (patterns item) }
{
    if item.is_jump() & (MAX_JUMPS <= jumps) {
        return Err(Fault::NoSpace);
    }
    Ok(())
}

pub fn row_fault(row: Row, item: ReadItem, count: u16, own: u16, jumps: u16) -> Result<(), Fault>
    ensures { result_code result ≡ fault_in (row_of item.plain.command row) count own jumps (patterns item.plain) }
{
    if !frame_ok(row.positional, item.plain.frame) {
        return Err(Fault::UnsupportedFrame);
    }
    if !param_ok(row.param1, count, own, item.param1()) {
        return Err(Fault::InvalidParam1);
    }
    if !param_ok(row.param2, count, own, item.param2()) {
        return Err(Fault::InvalidParam2);
    }
    place_fault(row.positional, item)?;
    room_fault(jumps, item.plain)
}

// An item in the 38 bytes of ITEM_INT or of a stored item: read from them, and written from the item's patterns.
ghost use Rattle.std.specs.Prelude.{◌≡◌, ◌≤◌, length};
ghost use Rattle.rules.specs.Limits.{item_bytes};
ghost use Rattle.rules.specs.Messages.{station, item_int, item_in};
ghost use Rattle.item.specs.Patterns.{item_for, patterns};
ghost use Rattle.fields.specs.Packed.{BytesOf};

use crate::{Item, made};
use fields::{bytes16, bytes32, u16_at, u32_at};
use limits::ITEM_BYTES;

// The item in the 38 bytes of ITEM_INT or of a stored item.
pub fn item_at(p: &[u8]) -> Item
    requires { item_bytes ≤ length p.now }
    ensures { result ≡ item_for (item_in p.now) }
{
    made(
        u32_at(p, 0),
        u32_at(p, 4),
        u32_at(p, 8),
        u32_at(p, 12),
        u32_at(p, 16),
        u32_at(p, 20),
        u32_at(p, 24),
        u16_at(p, 28),
        u16_at(p, 30),
        p[34],
        p[36],
        p[37],
    )
}

// The 38 bytes of ITEM_INT, written from the item's patterns; also those of a stored item, whose system, component and current are 0. A literal:
// nine parts copied into an array of zeros would name each offset twice.
pub fn item_bytes(system: u8, component: u8, current: u8, item: Item) -> [u8; ITEM_BYTES]
    ensures { BytesOf (item_int (station system component) current (patterns item)) result }
{
    let a = bytes32(item.bits1);
    let b = bytes32(item.bits2);
    let c = bytes32(item.bits3);
    let d = bytes32(item.bits4);
    let x = bytes32(item.bits_x);
    let y = bytes32(item.bits_y);
    let z = bytes32(item.bits_z);
    let seq = bytes16(item.seq);
    let command = bytes16(item.command);
    [
        a[0],
        a[1],
        a[2],
        a[3],
        b[0],
        b[1],
        b[2],
        b[3],
        c[0],
        c[1],
        c[2],
        c[3],
        d[0],
        d[1],
        d[2],
        d[3],
        x[0],
        x[1],
        x[2],
        x[3],
        y[0],
        y[1],
        y[2],
        y[3],
        z[0],
        z[1],
        z[2],
        z[3],
        seq[0],
        seq[1],
        command[0],
        command[1],
        system,
        component,
        item.frame,
        current,
        item.autocontinue,
        item.kind,
    ]
}

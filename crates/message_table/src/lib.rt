// The constant table of messages: ids, full lengths, and where target system, component and kind stand; and a payload as it is read by it.
#![tactic(auto)]

ghost use Rattle.std.specs.Prelude.{◌≡◌, Some, None};
ghost use Rattle.rules.specs.Layouts.{layout_of};
ghost use Rattle.message_table.specs.Table.{IsRowOf, Owned, ReadAs};

use limits::{FLIGHT, ITEM_BYTES};

pub const PARTIAL_LIST_ID: u32 = 38;

pub const SET_CURRENT_ID: u32 = 41;

pub const CURRENT_ID: u32 = 42;

pub const REQUEST_LIST_ID: u32 = 43;

pub const COUNT_ID: u32 = 44;

pub const CLEAR_ALL_ID: u32 = 45;

pub const ACK_ID: u32 = 47;

pub const REQUEST_INT_ID: u32 = 51;

pub const ITEM_INT_ID: u32 = 73;

pub const STATUSTEXT_ID: u32 = 253;

// Where the target's system stands in a message, its component behind it, and the kind, where it has one.
#[derive(Clone, Copy)]
struct HeadAt {
    target: usize,
    kind: Option<usize>,
}

// A row of the table: the full length, and of a message that is read here where its head stands.
#[derive(Clone, Copy)]
struct Row {
    full: usize,
    head: Option<HeadAt>,
}

fn read(full: usize, target: usize, kind: Option<usize>) -> Option<Row>
    ensures { result ≡ Some (record { full = full; head = Some (record { target = target; kind = kind }) }) }
{
    Some(Row {
        full,
        head: Some(HeadAt { target, kind }),
    })
}

fn only_written(full: usize) -> Option<Row>
    ensures { result ≡ Some (record { full = full; head = None }) }
{
    Some(Row { full, head: None })
}

// The row of an id. SET_CURRENT has no kind.
fn row_of(id: u32) -> Option<Row>
    ensures { IsRowOf id result }
{
    match id {
        PARTIAL_LIST_ID => read(7, 4, Some(6)),
        SET_CURRENT_ID => read(4, 2, None),
        CURRENT_ID => only_written(18),
        REQUEST_LIST_ID => read(3, 0, Some(2)),
        COUNT_ID => read(9, 2, Some(4)),
        CLEAR_ALL_ID => read(3, 0, Some(2)),
        ACK_ID => read(8, 0, Some(3)),
        REQUEST_INT_ID => read(5, 2, Some(4)),
        ITEM_INT_ID => read(38, 32, Some(37)),
        STATUSTEXT_ID => only_written(54),
        _ => None,
    }
}

// The full length of a message, 0 where the id is not in the table.
pub fn full_of(id: u32) -> usize
    ensures { result ≡ (layout_of id).full }
{
    row_of(id).map_or(0, |row| row.full)
}

// The longest message that is read here is ITEM_INT.
pub const OWN_BYTES: usize = ITEM_BYTES;

// What a message is judged by before its own rule: target system, target component and kind, which may be any numbers.
#[derive(Clone, Copy)]
pub struct Head {
    pub system: u8,
    pub component: u8,
    pub kind: u8,
}

// The payload of a message that is read here, as it is read, once: its head, and its own bytes, zero-filled.
#[derive(Clone, Copy)]
pub struct Received {
    pub head: Head,
    pub own: [u8; OWN_BYTES],
}

// The bytes of a payload that are a message's own: those past its full length are ignored, missing ones are zero.
fn own_bytes(full: usize, payload: &[u8]) -> [u8; OWN_BYTES]
    ensures { Owned full payload.now result }
{
    let n = full.min(payload.len()).min(OWN_BYTES);
    let mut own = [0u8; OWN_BYTES];
    copying::copy(payload, n, &mut own, 0);
    own
}

// None where messages of this id are not read here.
pub fn receive(id: u32, payload: &[u8]) -> Option<Received>
    ensures { ReadAs id payload.now result }
{
    let row = row_of(id)?;
    let at = row.head?;
    let own = own_bytes(row.full, payload);
    let head = Head {
        system: own[at.target],
        component: own[at.target + 1],
        kind: at.kind.map_or(FLIGHT, |kind| own[kind]),
    };
    Some(Received { head, own })
}

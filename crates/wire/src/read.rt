// Reading: each message from its own bytes, by the fields' offsets. A function for each, since no two read the same fields at the same offsets but REQUEST_LIST's
// and CLEAR_ALL's, which are two messages of MAVLink: one struct for both would let one be taken for the other.
ghost use Rattle.std.specs.Prelude.{◌≡◌};
ghost use Rattle.rules.specs.Layouts.{partial_list_id, set_current_id, request_list_id, count_id, clear_all_id, ack_id, request_int_id, item_int_id};
ghost use Rattle.rules.specs.Messages.{decode};
ghost use Rattle.item.specs.Patterns.{item_for, patterns};
ghost use Rattle.wire.specs.Structs.{partial_list_message, set_current_message, request_list_message, count_message, clear_all_message, ack_message, request_int_message, item_int_message};

use crate::structs::{
    Ack, ClearAll, Count, ItemInt, PartialList, RequestInt, RequestList, SetCurrent,
};
use fields::{u16_at, u32_at};
use item::item_at;
use message_table::OWN_BYTES;

pub fn read_partial_list(own: &[u8; OWN_BYTES]) -> PartialList
    ensures { partial_list_message result ≡ decode partial_list_id own.now }
{
    PartialList {
        start: u16_at(own, 0),
        end: u16_at(own, 2),
        system: own[4],
        component: own[5],
        kind: own[6],
    }
}

pub fn read_set_current(own: &[u8; OWN_BYTES]) -> SetCurrent
    ensures { set_current_message result ≡ decode set_current_id own.now }
{
    SetCurrent {
        seq: u16_at(own, 0),
        system: own[2],
        component: own[3],
    }
}

pub fn read_request_list(own: &[u8; OWN_BYTES]) -> RequestList
    ensures { request_list_message result ≡ decode request_list_id own.now }
{
    RequestList {
        system: own[0],
        component: own[1],
        kind: own[2],
    }
}

pub fn read_count(own: &[u8; OWN_BYTES]) -> Count
    ensures { count_message result ≡ decode count_id own.now }
{
    Count {
        count: u16_at(own, 0),
        system: own[2],
        component: own[3],
        kind: own[4],
        number: u32_at(own, 5),
    }
}

pub fn read_clear_all(own: &[u8; OWN_BYTES]) -> ClearAll
    ensures { clear_all_message result ≡ decode clear_all_id own.now }
{
    ClearAll {
        system: own[0],
        component: own[1],
        kind: own[2],
    }
}

pub fn read_ack(own: &[u8; OWN_BYTES]) -> Ack
    ensures { ack_message result ≡ decode ack_id own.now }
{
    Ack {
        system: own[0],
        component: own[1],
        result: own[2],
        kind: own[3],
        number: u32_at(own, 4),
    }
}

pub fn read_request_int(own: &[u8; OWN_BYTES]) -> RequestInt
    ensures { request_int_message result ≡ decode request_int_id own.now }
{
    RequestInt {
        seq: u16_at(own, 0),
        system: own[2],
        component: own[3],
        kind: own[4],
    }
}

pub fn read_item_int(own: &[u8; OWN_BYTES]) -> ItemInt
    ensures { (item_int_message result ≡ decode item_int_id own.now) × (result.item ≡ item_for (patterns result.item)) }
{
    ItemInt {
        system: own[32],
        component: own[33],
        current: own[35],
        item: item_at(own),
    }
}

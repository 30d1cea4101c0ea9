// The lines, one case each.
use crate::test_payloads::LONGEST;

// What a line shows: a message, read from a part of the payloads and written into a buffer of so many bytes; for how many lengths a message agrees, with how
// long it is in full; or a float's pattern and the whole number that is meant by it.
#[derive(Clone, Copy)]
pub enum Case {
    Message {
        id: u32,
        from: usize,
        len: usize,
        room: usize,
    },
    Lengths {
        id: u32,
        full: usize,
    },
    Whole {
        bits: u32,
        meant: i32,
    },
}

fn message(id: u32, from: usize, len: usize, room: usize) -> Case {
    Case::Message {
        id,
        from,
        len,
        room,
    }
}

fn whole(bits: u32, meant: i32) -> Case {
    Case::Whole { bits, meant }
}

// Four lines of a message, for which a buffer is one byte short or just long enough: every length; then no bytes at all, and the two buffers, of which the
// short one stays as it is.
fn in_lengths(i: usize, id: u32, short: usize, full: usize) -> Case {
    match i {
        0 => Case::Lengths { id, full },
        1 => message(id, 0, 0, 60),
        2 => message(id, 0, LONGEST, short),
        _ => message(id, 0, LONGEST, full),
    }
}

fn length_case(i: usize) -> Case {
    match i / 4 {
        0 => in_lengths(i % 4, wire::COUNT_ID, 8, 9),
        1 => in_lengths(i % 4, wire::ACK_ID, 7, 8),
        2 => in_lengths(i % 4, wire::REQUEST_INT_ID, 4, 5),
        _ => in_lengths(i % 4, wire::ITEM_INT_ID, 37, 38),
    }
}

pub const COUNT: usize = 39;

// Payloads of every length; from 16 on MAVLink's own test values: the messages that are read, with their bytes where they are also written, then those that
// are only written; from 27 on whole numbers: 8388607 and 8388607.5; the last below 2 ^ 31, 2 ^ 31, -2 ^ 31, and the first below it; NaN, quiet and signalling,
// of either sign; the infinities.
pub fn case_of(i: usize) -> Case {
    match i {
        16 => message(wire::PARTIAL_LIST_ID, 300, 7, 0),
        17 => message(wire::SET_CURRENT_ID, 307, 4, 0),
        18 => message(wire::REQUEST_LIST_ID, 311, 3, 0),
        19 => message(wire::CLEAR_ALL_ID, 311, 3, 0),
        20 => message(wire::COUNT_ID, 314, 9, 60),
        21 => message(wire::ACK_ID, 323, 8, 60),
        22 => message(wire::REQUEST_INT_ID, 331, 5, 60),
        23 => message(wire::ITEM_INT_ID, 336, 38, 60),
        24 => message(wire::ITEM_INT_ID, 374, 38, 60),
        25 => message(wire::CURRENT_ID, 0, 0, 60),
        26 => message(wire::STATUSTEXT_ID, 0, 0, 60),
        27 => whole(0x4aff_fffe, 8388607),
        28 => whole(0x4aff_ffff, 8388607),
        29 => whole(0x4eff_ffff, 2147483520),
        30 => whole(0x4f00_0000, 2147483647),
        31 => whole(0xcf00_0000, -2147483648),
        32 => whole(0xcf00_0001, -2147483648),
        33 => whole(0x7fc0_0000, 0),
        34 => whole(0x7f80_0001, 0),
        35 => whole(0xffc0_0000, 0),
        36 => whole(0xff80_0001, 0),
        37 => whole(0x7f80_0000, 0),
        38 => whole(0xff80_0000, 0),
        _ => length_case(i),
    }
}

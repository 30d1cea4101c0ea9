// A message read, and written again; of a message that is only written, MAVLink's own test values.
use text::Text;
use wire::OWN_BYTES;

// What a buffer holds before it is written to, and the longest one.
pub const BEFORE: u8 = 0xAA;

pub const BUFFER: usize = 60;

fn current() -> wire::Current {
    wire::Current {
        seq: 17235,
        total: 17339,
        state: 17,
        mode: 84,
        mission: 963497776,
        fence: 963497984,
        rally: 963498192,
    }
}

// Severity 5, fifty times `m`, id 19887, chunk 228.
fn statustext() -> wire::Statustext {
    wire::Statustext {
        severity: 5,
        text: [b'm'; 50],
        id: 19887,
        chunk: 228,
    }
}

// The message's own bytes in a payload; zeros for one that is only written.
pub fn own_bytes(id: u32, payload: &[u8]) -> [u8; OWN_BYTES] {
    wire::receive(id, payload).map_or([0; OWN_BYTES], |got| got.own)
}

// The message of these own bytes, written: how many bytes that takes, or 0 for one that is only read.
pub fn written(id: u32, own: &[u8; OWN_BYTES], to: &mut [u8]) -> usize {
    match id {
        wire::CURRENT_ID => reply::write(current(), to),
        wire::STATUSTEXT_ID => reply::write(statustext(), to),
        wire::COUNT_ID => reply::write(wire::read_count(own), to),
        wire::ACK_ID => reply::write(wire::read_ack(own), to),
        wire::REQUEST_INT_ID => reply::write(wire::read_request_int(own), to),
        wire::ITEM_INT_ID => reply::write(wire::read_item_int(own), to),
        _ => 0,
    }
}

// An item's params and z are shown as bit patterns.
fn put_item(text: &mut Text, m: wire::ItemInt) {
    let i = m.item;
    let list = [
        i.bits1 as u64,
        i.bits2 as u64,
        i.bits3 as u64,
        i.bits4 as u64,
        i.bits_x as u64,
        i.bits_y as u64,
        i.bits_z as u64,
        i.seq as u64,
        i.command as u64,
        m.system as u64,
        m.component as u64,
        i.frame as u64,
        m.current as u64,
        i.autocontinue as u64,
        i.kind as u64,
    ];
    text::put_numbers(text, &list);
}

// The station and the kind that many messages end with.
fn put_ending(text: &mut Text, system: u8, component: u8, kind: u8) {
    text::put_numbers(text, &[system as u64, component as u64, kind as u64]);
}

// A message's fields as read, in wire order; none of one that is only written.
fn put_fields(text: &mut Text, id: u32, own: &[u8; OWN_BYTES]) {
    match id {
        wire::PARTIAL_LIST_ID => {
            let m = wire::read_partial_list(own);
            text::put_numbers(text, &[m.start, m.end]);
            put_ending(text, m.system, m.component, m.kind);
        }
        wire::SET_CURRENT_ID => {
            let m = wire::read_set_current(own);
            text::put_numbers(text, &[m.seq as u64, m.system as u64, m.component as u64]);
        }
        wire::REQUEST_LIST_ID => {
            let m = wire::read_request_list(own);
            put_ending(text, m.system, m.component, m.kind);
        }
        wire::CLEAR_ALL_ID => {
            let m = wire::read_clear_all(own);
            put_ending(text, m.system, m.component, m.kind);
        }
        wire::COUNT_ID => {
            let m = wire::read_count(own);
            text::put_numbers(text, &[m.count]);
            put_ending(text, m.system, m.component, m.kind);
            text::put_numbers(text, &[m.number as u64]);
        }
        wire::ACK_ID => {
            let m = wire::read_ack(own);
            let list = [m.result as u64, m.kind as u64, m.number as u64];
            text::put_numbers(text, &[m.system as u64, m.component as u64]);
            text::put_numbers(text, &list);
        }
        wire::REQUEST_INT_ID => {
            let m = wire::read_request_int(own);
            text::put_numbers(text, &[m.seq]);
            put_ending(text, m.system, m.component, m.kind);
        }
        wire::ITEM_INT_ID => put_item(text, wire::read_item_int(own)),
        _ => {}
    }
}

// A message read, and written into the first bytes of a buffer, which are told behind a space, where there are any.
pub fn put_message(text: &mut Text, id: u32, payload: &[u8], room: usize) {
    let mut buffer = [BEFORE; BUFFER];
    let end = text::within(room, &buffer);
    let bytes = &mut buffer[..end];
    let own = own_bytes(id, payload);
    let n = written(id, &own, bytes);
    rows::put_begun(text, b'm', &[id as u64, n as u64]);
    put_fields(text, id, &own);
    if 0 < end {
        text.put_byte(b' ');
        text::put_hex(text, bytes);
    }
    text.put_byte(b'\n');
}

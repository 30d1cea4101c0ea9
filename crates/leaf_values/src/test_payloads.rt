// The payloads: 300 bytes, none of them zero, and behind them MAVLink's own test values.
pub const LONGEST: usize = 300;

const TESTS: usize = 112;

pub const ALL: usize = 412;

// MISSION_WRITE_PARTIAL_LIST, SET_CURRENT, REQUEST_LIST and CLEAR_ALL, COUNT, ACK, REQUEST_INT, and ITEM_INT twice; the last one has quiet, signalling, negative
// and full NaN patterns, and minus zero.
const TEST_VALUES: [u8; TESTS] = *b"\x53\x43\xbb\x43\x11\x54\x97\
    \x53\x43\x8b\xce\
    \x05\x48\x8b\
    \x53\x43\x8b\xce\x11\xfc\xce\x6d\x39\
    \x05\x48\x8b\xce\xc8\xce\x6d\x39\
    \x53\x43\x8b\xce\x11\
    \x00\x00\x88\x41\x00\x00\x34\x42\x00\x00\x92\x42\x00\x00\xca\x42\x38\xd1\x6d\x39\x08\xd2\x6d\x39\x00\x00\x39\x43\x03\x49\x6b\x49\x65\xa8\xeb\x2e\x71\xb4\
    \x01\x00\xc0\x7f\x01\x00\x80\x7f\x45\x23\xc1\xff\xff\xff\xff\xff\x00\x00\x00\x80\xff\xff\xff\xff\x00\x00\x00\x80\x03\x00\x10\x00\x00\x00\x06\x00\x01\x00";

pub fn payloads() -> [u8; ALL] {
    let mut p = [0u8; ALL];
    for (i, byte) in p[..LONGEST].iter_mut().enumerate() {
        *byte = (i % 255 + 1) as u8;
    }
    p[LONGEST..].copy_from_slice(&TEST_VALUES);
    p
}

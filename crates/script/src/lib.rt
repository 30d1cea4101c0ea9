// Call scripts: the record that stands next, read from the bytes that are left. A record is a header of 24 bytes and a payload; its numbers
// are little-endian.
#![tactic(auto)]

mod kinds;

ghost use Rattle.std.specs.Prelude.{◌≡◌, ◌≤◌, length};
ghost use Rattle.script.specs.Records.{header_bytes, record_in, poke_fits, words_fit, items_fit, bytes_fit, write_fits, known as Records·known, fits as Records·fits, next_in};

use fields::{u16_at, u32_at};
pub use kinds::{Kind, Stop, Target};
use limits::{ITEM_WORDS, JUMP_COUNTS, RALLY};
use writing::WORD_BYTES;

// The setting that a fresh start takes by b4, where it is not 0: item 0 is home. It is a number, as the next is, since a record's byte may be any.
pub const HOME: u8 = 1;

// What a copy and a comparison take by b4 in the place of the store array, which is 0: the byte array of the old store.
pub const OLD: u8 = 1;

pub const HEADER_BYTES: usize = 24;

pub const MOST_PAYLOAD: usize = 300;

// The lengths of the arrays that a script's calls are lent: the store's, in words, the old store's, in bytes, and the reply's.
pub const STORE_ARRAY: usize = 5664;

pub const OLD_ARRAY: usize = 26880;

pub const REPLY_ARRAY: usize = 64;

// The bytes of an item as words.
const STORED_BYTES: usize = ITEM_WORDS * WORD_BYTES;

// A record's header; store and reply are the lengths lent to the call.
#[derive(Clone, Copy)]
pub struct Record {
    pub kind: Kind,
    pub b0: u8,
    pub b1: u8,
    pub b2: u8,
    pub b3: u8,
    pub b4: u8,
    pub len: usize,
    pub a: u32,
    pub clock: u32,
    pub store: usize,
    pub reply: usize,
}

fn record_in(kind: Kind, bytes: &[u8]) -> Record
    requires { header_bytes ≤ length bytes.now }
    ensures { result ≡ record_in kind bytes.now }
{
    Record {
        kind,
        b0: bytes[1],
        b1: bytes[2],
        b2: bytes[3],
        b3: bytes[4],
        b4: bytes[5],
        len: u16_at(bytes, 6) as usize,
        a: u32_at(bytes, 8),
        clock: u32_at(bytes, 12),
        store: u32_at(bytes, 16) as usize,
        reply: u32_at(bytes, 20) as usize,
    }
}

// Whether a number of the state has such a field and index.
#[tactic(auto, unfolding(crate::specs::Records::poke_fits))]
fn poke_fits(field: u8, index: u8) -> bool
    ensures { result ≡ poke_fits field index }
{
    match field {
        0..=9 | 13..=15 => index < 3,
        10 | 11 => index == 0,
        12 => (index as usize) < JUMP_COUNTS,
        _ => false,
    }
}

// Whether a row of words fits the store array from a word on.
#[tactic(auto, unfolding(crate::specs::Records::words_fit))]
fn words_fit(at: u32, len: usize) -> bool
    ensures { result ≡ words_fit at len }
{
    (len % WORD_BYTES == 0) & (at as usize + len / WORD_BYTES <= STORE_ARRAY)
}

// Whether a row of items fits the plan of a kind from an item on.
#[tactic(auto, unfolding(crate::specs::Records::items_fit))]
fn items_fit(kind: u8, at: u32, len: usize) -> bool
    ensures { result ≡ items_fit kind at len }
{
    let most = places::size_of(kind) as usize;
    (kind <= RALLY) & (len % STORED_BYTES == 0) & (at as usize + len / STORED_BYTES <= most)
}

// Whether bytes fit the old store's array from a byte on.
#[tactic(auto, unfolding(crate::specs::Records::bytes_fit))]
fn bytes_fit(at: u32, len: usize) -> bool
    ensures { result ≡ bytes_fit at len }
{
    len <= OLD_ARRAY && at as usize <= OLD_ARRAY - len
}

// Whether a payload fits where it is to go.
#[tactic(auto, unfolding(crate::specs::Records::write_fits))]
fn write_fits(to: u8, kind: u8, at: u32, len: usize) -> bool
    ensures { result ≡ write_fits to kind at len }
{
    match Target::try_from(to) {
        Ok(Target::Words) => words_fit(at, len),
        Ok(Target::Plan | Target::OtherHalf) => items_fit(kind, at, len),
        Ok(Target::Old) => bytes_fit(at, len),
        Err(_) => false,
    }
}

// Whether a record's parts are such as its kind takes.
fn known(r: Record) -> bool
    ensures { result ≡ Records·known r.kind r }
{
    let kind = r.kind;
    match kind {
        Kind::End | Kind::Message | Kind::Timer | Kind::Done | Kind::Dump => true,
        Kind::Fresh => r.b4 <= HOME,
        Kind::Snap | Kind::Compare => r.b4 <= OLD,
        Kind::Poke => poke_fits(r.b4, r.b0),
        Kind::Write => write_fits(r.b4, r.b0, r.a, r.len),
        Kind::Move => r.a as usize <= OLD_ARRAY,
    }
}

// Whether a record can be played.
#[tactic(auto, unfolding(crate::specs::Records::fits))]
fn fits(r: Record) -> bool
    ensures { result ≡ Records·fits r }
{
    known(r) & (r.len <= MOST_PAYLOAD) & (r.store <= STORE_ARRAY) & (r.reply <= REPLY_ARRAY)
}

// The record that stands next, whose payload follows its header; none at the end.
#[tactic(auto, unfolding(crate::specs::Records::next_in))]
pub fn next_record(bytes: &[u8]) -> Result<Option<Record>, Stop>
    ensures { result ≡ next_in bytes.now }
{
    if bytes.is_empty() {
        return Ok(None);
    }
    if bytes.len() < HEADER_BYTES {
        return Err(Stop::Cut);
    }
    let number = bytes[0];
    let kind = Kind::try_from(number)?;
    if kind == Kind::End {
        return Ok(None);
    }
    let r = record_in(kind, bytes);
    if !fits(r) {
        return Err(Stop::Bad(number));
    }
    if bytes.len() - HEADER_BYTES < r.len {
        return Err(Stop::Cut);
    }
    Ok(Some(r))
}

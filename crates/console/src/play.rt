// What each record does: a call of the service with its line, or what a host does between the calls.
use lines::REPLY_FILL;
use plan::State;
use script::{HEADER_BYTES, Kind, OLD_ARRAY, REPLY_ARRAY, Record, STORE_ARRAY, Target};
use streams::Unread;
use text::Text;

// The arrays that a script's calls are lent, the store's words and the old store's bytes, and a copy of either.
#[derive(Drop)]
pub struct Arrays {
    store: [u32; STORE_ARRAY],
    copy: [u32; STORE_ARRAY],
    old: [u8; OLD_ARRAY],
    old_copy: [u8; OLD_ARRAY],
}

impl Arrays {
    pub fn new() -> Arrays {
        Arrays {
            store: [0; STORE_ARRAY],
            copy: [0; STORE_ARRAY],
            old: [0; OLD_ARRAY],
            old_copy: [0; OLD_ARRAY],
        }
    }

    // Every byte of both stores becomes the same.
    fn fill(&mut self, byte: u8) {
        self.store = [u32::from_le_bytes([byte; 4]); STORE_ARRAY];
        self.old = [byte; OLD_ARRAY];
    }

    // Copies the store array or the old one aside.
    fn snap(&mut self, of_old: bool) {
        if of_old {
            self.old_copy = self.old;
        } else {
            self.copy = self.store;
        }
    }

    // Whether the store array or the old one is as its copy.
    fn same(&self, of_old: bool) -> bool {
        if of_old {
            return self.old == self.old_copy;
        }
        writing::same_words(&self.store, &self.copy)
    }
}

// The front part of an array that a call is lent.
fn front<T>(list: &mut [T], n: usize) -> &mut [T] {
    let end = text::within(n, list);
    &mut list[..end]
}

// A message call.
fn message(
    record: Record,
    payload: &[u8],
    text: &mut Text,
    store: &mut [u32],
    state: State,
) -> State {
    let mut reply = [REPLY_FILL; REPLY_ARRAY];
    let served = service::message(
        state,
        front(store, record.store),
        front(&mut reply, record.reply),
        record.b0,
        record.b1,
        record.b2,
        record.b3,
        record.a,
        payload,
        record.clock,
    );
    lines::put_served(
        text,
        b'm',
        served.outcome(),
        served.id(),
        served.len(),
        &reply,
    );
    served.state
}

fn timer(record: Record, text: &mut Text, store: &[u32], state: State) -> State {
    let mut reply = [REPLY_FILL; REPLY_ARRAY];
    let served = service::timer(
        state,
        text::first(store, record.store),
        front(&mut reply, record.reply),
        record.b4,
        record.clock,
    );
    lines::put_served(
        text,
        b't',
        served.outcome(),
        served.id(),
        served.len(),
        &reply,
    );
    served.state
}

fn done(record: Record, text: &mut Text, store: &[u32], state: State) -> State {
    let advanced = service::advance(state, text::first(store, record.store));
    lines::put_done(text, advanced.outcome(), advanced.command());
    advanced.state
}

// A move: the plans of the old store go into the store.
fn moved(record: Record, text: &mut Text, store: &mut [u32], old: &[u8], state: State) -> State {
    let from = text::first(old, record.a as usize);
    let moved = moves::to_words(state, from, front(store, record.store));
    lines::put_moved(text, moved.outcome());
    moved.state
}

// A host writes words, items of a plan in either half, or bytes of the old store.
fn write(record: Record, payload: &[u8], arrays: &mut Arrays, state: State) {
    let Ok(target) = Target::try_from(record.b4) else {
        return;
    };
    let at = record.a as usize;
    match target {
        Target::Words => writing::write_words(&mut arrays.store, at, payload),
        Target::Old => writing::write(&mut arrays.old, at, payload),
        Target::Plan | Target::OtherHalf => {
            let n = (record.a % 0x1_0000) as u16;
            let word = host::item_word(state, record.b0, target == Target::OtherHalf, n);
            writing::write_words(&mut arrays.store, word, payload);
        }
    }
}

// Plays a record: the state after it.
pub fn play(
    record: Record,
    payload: &[u8],
    text: &mut Text,
    arrays: &mut Arrays,
    state: State,
) -> State {
    let of_old = record.b4 == script::OLD;
    let kind = record.kind;
    match kind {
        Kind::Message => return message(record, payload, text, &mut arrays.store, state),
        Kind::Timer => return timer(record, text, &arrays.store, state),
        Kind::Done => return done(record, text, &arrays.store, state),
        Kind::Move => return moved(record, text, &mut arrays.store, &arrays.old, state),
        Kind::Poke => return host::poked(state, record.b4, record.b0, record.a),
        Kind::Fresh => {
            arrays.fill(record.b0);
            return service::fresh(record.b4 == script::HOME);
        }
        Kind::Dump => dump::put_dump(text, record.b4, state, &arrays.store),
        Kind::Snap => arrays.snap(of_old),
        Kind::Compare => rows::put_row(text, b's', &[arrays.same(of_old) as u64]),
        Kind::Write => write(record, payload, arrays, state),
        Kind::End => {}
    }
    state
}

// How many bytes are unread.
pub fn left(unread: Unread) -> usize {
    std::num::wrapping_sub_usize(unread.end, unread.at)
}

// What is unread after a record.
pub fn past(unread: Unread, record: Record) -> Unread {
    let at = std::num::wrapping_add_usize(unread.at, HEADER_BYTES);
    Unread {
        at: std::num::wrapping_add_usize(at, record.len),
        end: unread.end,
    }
}

// Bytes and words written over others, in a store that a host writes, and words compared.
#![tactic(auto)]

ghost use Rattle.std.specs.Prelude.{◌≡◌, true};
ghost use Rattle.writing.specs.Written.{written, words_written};

pub const WORD_BYTES: usize = 4;

// Bytes go into the store from a place on, where all of them fit. (By `get_mut` of that range a proof loses what stands beside it.)
pub fn write(store: &mut [u8], at: usize, payload: &[u8])
    ensures { store.new ≡ written store.old at payload.now }
{
    if store.len() < at {
        return;
    }
    if store.len() - at < payload.len() {
        return;
    }
    let end = at + payload.len();
    store[at..end].copy_from_slice(payload);
}

// The same of words, whose bytes stand in the payload, lowest first. Nothing is written where they are not whole words. Each is read from four
// bytes, so that one function over both would be no shorter.
pub fn write_words(store: &mut [u32], at: usize, payload: &[u8])
    ensures { store.new ≡ words_written store.old at payload.now }
{
    if payload.len() % WORD_BYTES != 0 {
        return;
    }
    if store.len() < at {
        return;
    }
    let words = payload.len() / WORD_BYTES;
    if store.len() - at < words {
        return;
    }
    for i in 0..words {
        store[at + i] = fields::u32_at(payload, i * WORD_BYTES);
    }
}

// Whether two slices hold the same words.
pub fn same_words(a: &[u32], b: &[u32]) -> bool
    ensures { (result ≡ true → a.now ≡ b.now) × (a.now ≡ b.now → result ≡ true) }
{
    a == b
}

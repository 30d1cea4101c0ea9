// An item in the store: kept as its eight words at its place, fetched from there as a struct, and carried from one half to the other as it stands. Its number and its
// kind are those of the place.
#![tactic(auto)]

ghost use Rattle.std.specs.Prelude.{◌≡◌, ℕ, ◌+◌, ◌*◌, ◌-◌, ◌≤◌, ◌<◌, length, get_or};
ghost use Rattle.rules.specs.Limits.{size_of, item_words, store_words, clock_values};
ghost use Rattle.rules.specs.Messages.{item_in};
ghost use Rattle.rules.specs.Words.{words_of, item_of_words, last_word_of};
ghost use Rattle.item.specs.Patterns.{item_for, patterns};
ghost use Rattle.places.specs.Part.{part};
ghost use Rattle.limits.specs.Kinds.{kind_number};
ghost use Rattle.places.specs.Forms.{words, item_at};
ghost use Rattle.places.specs.KindItems.{item_with};
ghost use Rattle.places.specs.Writes.{put_at};
ghost use Rattle.places.specs.Carried.{carried_at, carried};
ghost use Rattle.storage.specs.Kept.{at_place};

use item::Item;
use limits::{AUTOCONTINUE_UNIT, FRAME_UNIT, ITEM_WORDS, Kind};
use places::{Items, item_place, place_at, put_item};

const BYTE_VALUES: u32 = 0x100;

// Command, frame and autocontinue in one word, lowest first.
fn last_word(command: u16, frame: u8, autocontinue: u8) -> u32
    ensures { result ≡ last_word_of command frame autocontinue }
{
    command as u32 + frame as u32 * FRAME_UNIT + autocontinue as u32 * AUTOCONTINUE_UNIT
}

// The item that eight words are, as one of a number and a kind.
pub fn from_words(stored: [u32; ITEM_WORDS], kind: u8, seq: u16) -> Item
    ensures { result ≡ item_for (item_of_words stored kind seq) }
{
    let [bits1, bits2, bits3, bits4, bits_x, bits_y, bits_z, last] = stored;
    item::made(
        bits1,
        bits2,
        bits3,
        bits4,
        bits_x,
        bits_y,
        bits_z,
        seq,
        (last % FRAME_UNIT) as u16,
        (last / FRAME_UNIT % BYTE_VALUES) as u8,
        (last / AUTOCONTINUE_UNIT % BYTE_VALUES) as u8,
        kind,
    )
}

// The eight words of an item place, each below 2^32.
fn words_at(store: &[u32], place: u32) -> [u32; ITEM_WORDS]
    requires { place * item_words + item_words ≤ length store.now }
    ensures there { result ≡ part store.now (place * item_words) item_words }
    ensures small { (i : ℕ) → get_or result i 0 < clock_values }
{
    store.as_chunks::<ITEM_WORDS>().0[place as usize]
}

// The item with a number.
pub fn fetch(items: Items<'_>, n: u16) -> Item
    requires { n < size_of (kind_number items.kind) }
    ensures { result ≡ item_for (item_in (item_with items.entry n)) }
{
    let stored = words_at(items.store, item_place(items.kind, items.half, n));
    from_words(stored, items.kind.number(), n)
}

// The item becomes the one with a number, and is fetched from there as it was kept, with the number and the kind of the place; every other word of the store stays.
pub fn keep(store: &mut [u32], kind: Kind, half: bool, n: u16, item: Item)
    requires { (store_words ≤ length store.old) × (n < size_of (kind_number kind)) }
    ensures { (store.new ≡ put_at words store.old half (kind_number kind) n (words_of (patterns item))) × (item_in (item_at words store.new half (kind_number kind) n) ≡ at_place (kind_number kind) n (patterns item)) }
{
    let last = last_word(item.command, item.frame, item.autocontinue);
    let kept = [
        item.bits1,
        item.bits2,
        item.bits3,
        item.bits4,
        item.bits_x,
        item.bits_y,
        item.bits_z,
        last,
    ];
    put_item(store, place_at(kind, half, n), kept);
}

// The item with a number goes, as it stands in a half, to its place in the other half: as a whole, where the library's `copy_within` goes word by word.
fn carry(store: &mut [u32], kind: Kind, half: bool, n: u16)
    requires { (store_words ≤ length store.old) × (n < size_of (kind_number kind)) }
    ensures { store.new ≡ carried_at words store.old half (kind_number kind) n }
{
    let item = words_at(store, item_place(kind, half, n));
    put_item(store, place_at(kind, !half, n), item);
}

// The items from number `low` on and below `high` do.
pub fn carry_items(store: &mut [u32], kind: Kind, half: bool, low: u16, high: u16)
    requires { (store_words ≤ length store.old) × (low ≤ high) × (high ≤ size_of (kind_number kind)) }
    ensures { store.new ≡ carried words store.old half (kind_number kind) low (high - low) }
{
    for i in low..high {
        carry(store, kind, half, i);
    }
}

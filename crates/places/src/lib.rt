// Items in the store, eight words each: where those of a kind stand, by the tables of document 01; storing one, reading two of its fields, and counting jumps.
#![tactic(auto)]

mod items;

ghost use Rattle.std.specs.Prelude.{◌≡◌, ◌+◌, ◌≤◌, ◌<◌, length, get_or};
ghost use Rattle.rules.specs.Limits.{size_of, first_place_of, item_words};
ghost use Rattle.rules.specs.Messages.{item_in};
ghost use Rattle.rules.specs.Words.{last_word, command_in};
ghost use Rattle.rules.specs.Items.{jumps_among};
ghost use Rattle.limits.specs.Kinds.{kind_number};
ghost use Rattle.places.specs.Part.{put};
ghost use Rattle.places.specs.Forms.{words, place_of, offset_of};
ghost use Rattle.places.specs.KindItems.{item_with, first_items};
ghost use Rattle.places.specs.Stored.{with_command};

pub use items::Items;
use limits::{FENCE, FLIGHT, FRAME_UNIT, ITEM_WORDS, JUMP, Kind, RALLY};

const HALF_PLACES: u32 = 352;

// The most items that a plan of a kind has; 0 above the last kind, as call scripts and messages may have one.
pub fn size_of(kind: u8) -> u16
    ensures { result ≡ size_of kind }
{
    match kind {
        FLIGHT => 256,
        FENCE => 64,
        RALLY => 32,
        _ => 0,
    }
}

// The item place at which a kind begins, in either half.
fn first_place_of(kind: Kind) -> u16
    ensures { result ≡ first_place_of (kind_number kind) }
{
    match kind {
        Kind::Flight => 0,
        Kind::Fence => 256,
        Kind::Rally => 320,
    }
}

// The item place of a number.
#[tactic(auto, unfolding(crate::specs::Forms::place_of))]
pub fn item_place(kind: Kind, half: bool, n: u16) -> u32
    ensures { result ≡ place_of words half (kind_number kind) n }
{
    let place = first_place_of(kind) as u32 + n as u32;
    if half {
        return HALF_PLACES + place;
    }
    place
}

// The store's word at which the item with a number begins.
#[tactic(auto, unfolding(crate::specs::Forms::offset_of))]
pub fn place_at(kind: Kind, half: bool, n: u16) -> usize
    ensures { result ≡ offset_of words half (kind_number kind) n }
{
    item_place(kind, half, n) as usize * ITEM_WORDS
}

// The eight words from `at` become an item's; every other word stays. Word by word they go as a whole: the library's `copy_from_slice` tests first whether both
// share memory.
pub fn put_item(store: &mut [u32], at: usize, item: [u32; ITEM_WORDS])
    requires { at + item_words ≤ length store.old }
    ensures { store.new ≡ put store.old at item }
{
    for i in 0..ITEM_WORDS {
        store[at + i] = item[i];
    }
}

const LAST_WORD: usize = ITEM_WORDS - 1;

// The command of the item that begins at `at`.
pub fn command_at(store: &[u32], at: usize) -> u16
    requires { at + item_words ≤ length store.now }
    ensures { result ≡ command_in (get_or store.now (at + last_word) 0) }
{
    (store[at + LAST_WORD] % FRAME_UNIT) as u16
}

// The bit pattern of its param 1, the first word.
pub fn param1_at(store: &[u32], at: usize) -> u32
    requires { at + item_words ≤ length store.now }
    ensures { result ≡ get_or store.now at 0 }
{
    store[at]
}

impl Items<'_> {
    // The command of the item with a number.
    pub fn command(self, n: u16) -> u16
        requires { n < size_of (kind_number self.kind) }
        ensures { result ≡ (item_in (item_with self.entry n)).command }
    {
        command_at(self.store, place_at(self.kind, self.half, n))
    }

    // The bit pattern of its param 1.
    pub fn param1(self, n: u16) -> u32
        requires { n < size_of (kind_number self.kind) }
        ensures { result ≡ (item_in (item_with self.entry n)).param1 }
    {
        param1_at(self.store, place_at(self.kind, self.half, n))
    }

    // How many of the first n items have a command.
    pub fn with_command(self, n: u16, command: u16) -> u16
        requires { n ≤ size_of (kind_number self.kind) }
        ensures { result ≡ with_command command (first_items self.entry n) }
    {
        let mut count: u16 = 0;
        for i in 0..n {
            if self.command(i) == command {
                count += 1;
            }
        }
        count
    }

    // How many of them are jumps.
    pub fn jumps(self, n: u16) -> u16
        requires { n ≤ size_of (kind_number self.kind) }
        ensures { result ≡ jumps_among (first_items self.entry n) }
    {
        self.with_command(n, JUMP)
    }
}

// The lines of one kind in a dump: its plan, its upload, and the items of both.
ghost use Rattle.std.specs.Prelude.{◌≡◌, ◌-◌, get_or};
ghost use Rattle.rules.specs.Messages.{item_of};
ghost use Rattle.rules.specs.Words.{item_of_words};
ghost use Rattle.limits.specs.Kinds.{kind_number};
ghost use Rattle.adding.specs.Added.{Adds};
ghost use Rattle.dump.specs.Plans.{item_line, item_lines, brought_lines, part_text, upload_line, half_mark, plan_line, kind_text};

use limits::{ITEM_BYTES, ITEM_WORDS, Kind};
use plan::{Plan, Run};
use text::Text;

// A word of some, or 0 past their end.
fn word(words: &[u32], at: usize) -> u32
    ensures { result ≡ get_or words.now at 0 }
{
    words.get(at).copied().unwrap_or(0)
}

// The bytes of the item that words of a store are as number n of a kind. System, component and current are 0.
fn stored_item(words: &[u32], kind: u8, n: u16) -> [u8; ITEM_BYTES]
    ensures { result ≡ item_of (item_of_words words.now kind n) }
{
    let stored = std::array::from_fn(|i| word(words, i));
    let item = storage::from_words(stored, kind, n);
    item::item_bytes(0, 0, 0, item)
}

// The line of the item with a number: its bytes. In lines a kind is the number that they tell.
fn put_item(text: &mut Text, letter: u8, kind: u8, n: u16, bytes: &[u8])
    ensures { Adds (item_line letter kind n bytes.now) text.old text.new }
{
    rows::put_line(
        text,
        &[letter],
        &[kind as u64, n as u64],
        b" ",
        bytes,
        b"\n",
    );
}

// The items of a kind in a half, from one number up to another.
fn put_items(text: &mut Text, letter: u8, kind: Kind, half: bool, from: u16, to: u16, store: &[u32])
    ensures { Adds (item_lines letter (kind_number kind) half store.now from (to - from)) text.old text.new }
{
    let number = kind.number();
    for n in from..to {
        let place = places::place_at(kind, half, n);
        let bytes = stored_item(text::part(store, place, ITEM_WORDS), number, n);
        put_item(text, letter, number, n, &bytes);
    }
}

// The items that an upload has brought, which stand in a half.
#[tactic(auto, unfolding(crate::specs::Plans::brought_lines))]
fn put_brought(text: &mut Text, kind: Kind, half: bool, upload: Option<Run>, store: &[u32])
    ensures { Adds (brought_lines (kind_number kind) half upload store.now) text.old text.new }
{
    if let Some(run) = upload {
        put_items(text, b'w', kind, half, run.first, run.next, store);
    }
}

// What an upload's line ends with: of a partial one the first and the last number that it brings.
#[tactic(auto, unfolding(crate::specs::Plans::part_text))]
fn put_part(text: &mut Text, partial: bool, first: u16, last: u16)
    ensures { Adds (part_text partial first last) text.old text.new }
{
    if partial {
        text.put_byte(b' ');
        rows::put_row(text, b'P', &[first as u64, last as u64]);
    } else {
        text.put_byte(b'\n');
    }
}

#[tactic(auto, unfolding(crate::specs::Plans::upload_line))]
fn put_upload(text: &mut Text, kind: u8, upload: Option<Run>)
    ensures { Adds (upload_line kind upload) text.old text.new }
{
    match upload {
        None => {
            rows::put_begun(text, b'u', &[kind as u64]);
            text.put(b" -\n");
        }
        Some(run) => {
            let list = [
                kind as u64,
                run.from.system as u64,
                run.from.component as u64,
                run.count as u64,
                run.next as u64,
                run.started as u64,
                run.repeats as u64,
            ];
            rows::put_begun(text, b'u', &list);
            put_part(text, run.partial, run.first, run.last);
        }
    }
}

// What a plan's line ends with: its half, or a mark in its place.
#[tactic(auto, unfolding(crate::specs::Plans::half_mark))]
fn half_mark(halves: bool, half: bool) -> [u8; 3]
    ensures { result ≡ half_mark halves half }
{
    match (halves, half) {
        (false, _) => *b" -\n",
        (true, false) => *b" 0\n",
        (true, true) => *b" 1\n",
    }
}

fn put_plan(text: &mut Text, halves: bool, kind: u8, plan: Plan)
    ensures { Adds (plan_line halves kind plan) text.old text.new }
{
    let list = [
        kind as u64,
        plan.len as u64,
        plan.number as u64,
        plan::number_shown(plan) as u64,
    ];
    rows::put_begun(text, b'k', &list);
    text.put(&half_mark(halves, plan.half));
    let upload = plan.upload;
    put_upload(text, kind, upload);
}

// The plan of a kind, its upload, and the items of both.
pub fn put_kind(text: &mut Text, halves: bool, kind: Kind, plan: Plan, store: &[u32])
    ensures { Adds (kind_text halves (kind_number kind) plan store.now) text.old text.new }
{
    let upload = plan.upload;
    put_plan(text, halves, kind.number(), plan);
    put_items(text, b'i', kind, plan.half, 0, plan.len, store);
    put_brought(text, kind, !plan.half, upload, store);
}

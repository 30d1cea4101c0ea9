// The lines that a call script's records print, each put behind the text so far.
#![tactic(auto)]

ghost use Rattle.std.specs.Prelude.{◌≡◌, drop};
ghost use Rattle.adding.specs.Added.{Adds};
ghost use Rattle.lines.specs.Lines.{untouched as Lines·untouched, reply_text, marked_end, served_line, done_line, moved_line, stop_text};

use command::Command;
use script::Stop;
use text::Text;

// What a reply array holds before a call.
pub const REPLY_FILL: u8 = 0xA5;

// Whether all bytes are what a reply array was filled with. All are looked at: a fold that does not leave early is one that the compiler makes wide.
fn filled(bytes: &[u8]) -> bool
    ensures { result ≡ Lines·untouched bytes.now }
{
    bytes
        .iter()
        .fold(true, |same, byte| same & (*byte == REPLY_FILL))
}

// Whether the bytes of a reply array from len on are what they were before the call.
fn untouched(reply: &[u8], len: usize) -> bool
    ensures { result ≡ Lines·untouched (drop len reply.now) }
{
    filled(text::part(reply, len, reply.len()))
}

// The bytes of a reply, or a mark where there are none.
#[tactic(auto, unfolding(crate::specs::Lines::reply_text))]
fn put_reply(text: &mut Text, len: usize, reply: &[u8])
    ensures { Adds (reply_text len reply.now) text.old text.new }
{
    if len == 0 {
        text.put_byte(b'-');
    } else {
        text::put_hex(text, text::first(reply, len));
    }
}

// The end of a line, which tells whether a call wrote past its reply.
#[tactic(auto, unfolding(crate::specs::Lines::marked_end))]
fn put_end(text: &mut Text, clean: bool)
    ensures { Adds (marked_end clean) text.old text.new }
{
    if clean {
        text.put(b"\n");
    } else {
        text.put(b" B\n");
    }
}

// What a message or a timer call returned, and the reply. They are numbers here, an outcome, an id and a length beside an array: the definition of the line tells any.
pub fn put_served(text: &mut Text, letter: u8, outcome: u8, id: u32, len: usize, reply: &[u8])
    ensures { Adds (served_line letter outcome id len reply.now) text.old text.new }
{
    let list = [outcome as u64, id as u64, len as u64];
    rows::put_begun(text, letter, &list);
    text.put_byte(b' ');
    put_reply(text, len, reply);
    put_end(text, untouched(reply, len));
}

// What a "command done" call answered.
pub fn put_done(text: &mut Text, outcome: u8, command: Command)
    ensures { Adds (done_line outcome command) text.old text.new }
{
    rows::put_begun(text, b'd', &[outcome as u64]);
    command_words::put_command(text, command);
}

// What a move answered.
pub fn put_moved(text: &mut Text, outcome: u8)
    ensures { Adds (moved_line outcome) text.old text.new }
{
    rows::put_row(text, b'v', &[outcome as u64]);
}

// Why a script stops, where that is not its end: nothing is told of what stands next, of any type.
#[tactic(auto, unfolding(crate::specs::Lines::stop_text))]
pub fn put_stop<T: Copy>(text: &mut Text, next: Result<T, Stop>)
    ensures { Adds (stop_text next) text.old text.new }
{
    match next {
        Ok(_) => {}
        Err(Stop::Cut) => text.put(b"? cut\n"),
        Err(Stop::Bad(kind)) => rows::put_row(text, b'?', &[kind as u64]),
    }
}

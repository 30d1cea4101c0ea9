// A command in words: what it is, its item's number, and its values.
#![tactic(auto)]

ghost use Rattle.std.specs.Prelude.{◌≡◌, [], ◌∷◌, ◌++◌};
ghost use Rattle.std.specs.Float.{binary32};
ghost use Rattle.std.specs.Float.Ieee.{to_bits};
ghost use Rattle.adding.specs.Added.{Adds};
ghost use Rattle.text.specs.Words.{ascii};
ghost use Rattle.text.specs.Digits.{spaced};
ghost use Rattle.command_words.specs.Commands.{high_first, value_text, command_text};

use command::Command;
use text::Text;

// The bit pattern of a value; every NaN is shown as the quiet one.
fn bits(x: f32) -> u32
    ensures { result ≡ to_bits binary32 x }
{
    if x.is_nan() {
        return 0x7fc0_0000;
    }
    x.to_bits()
}

// The bytes of that pattern, highest first.
fn value_bytes(x: f32) -> [u8; 4]
    ensures { result ≡ high_first (to_bits binary32 x) }
{
    bits(x).to_be_bytes()
}

// A command's word and numbers. A row of `rows` begins with one letter, and its numbers may be none.
fn put_numbers(text: &mut Text, word: &[u8], list: &[u64])
    ensures { Adds ((word.now ++ spaced list.now) ++ ascii "\n") text.old text.new }
{
    text.put(word);
    text::put_numbers(text, list);
    text.put_byte(b'\n');
}

// A command's word, number and value.
fn put_value(text: &mut Text, word: &[u8], n: u16, x: f32)
    ensures { Adds ((word.now ++ (spaced (n ∷ []) ++ value_text x)) ++ ascii "\n") text.old text.new }
{
    let bytes = value_bytes(x);
    rows::put_line(text, word, &[n as u64], b" ", &bytes, b"\n");
}

// The rest of a line from its command on.
#[tactic(auto, unfolding(crate::specs::Commands::command_text, adding::specs::Added::each))]
pub fn put_command(text: &mut Text, command: Command)
    ensures { Adds (command_text command ++ ascii "\n") text.old text.new }
{
    match command {
        Command::Fly(n) => put_numbers(text, b" fly", &[n as u64]),
        Command::Wait(n, x) => put_value(text, b" wait", n, x),
        Command::Near(n, x) => put_value(text, b" near", n, x),
        Command::Turn(n, x) => put_value(text, b" turn", n, x),
        Command::Speed(n, x) => put_value(text, b" speed", n, x),
        Command::Servo(n, channel, pulse) => {
            let list = [n as u64, channel as u64, pulse as u64];
            put_numbers(text, b" servo", &list);
        }
        Command::Finished => put_numbers(text, b" finished", &[]),
        Command::Stuck => put_numbers(text, b" stuck", &[]),
    }
}

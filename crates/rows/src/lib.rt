// Lines: of a letter and numbers, and of words, numbers and bytes.
#![tactic(auto)]

ghost use Rattle.adding.specs.Added.{Adds};
ghost use Rattle.rows.specs.Rows.{begun, row, line};

use text::Text;

// A letter and numbers: what every line begins with.
pub fn put_begun(text: &mut Text, letter: u8, list: &[u64])
    ensures { Adds (begun letter list.now) text.old text.new }
{
    text.put_byte(letter);
    text::put_numbers(text, list);
}

// A letter and numbers as a line.
pub fn put_row(text: &mut Text, letter: u8, list: &[u64])
    ensures { Adds (row letter list.now) text.old text.new }
{
    put_begun(text, letter, list);
    text.put_byte(b'\n');
}

// A word, numbers, a mark, bytes in hex, and the last of the line.
pub fn put_line(text: &mut Text, word: &[u8], list: &[u64], mark: &[u8], bytes: &[u8], last: &[u8])
    ensures { Adds (line word.now list.now mark.now bytes.now last.now) text.old text.new }
{
    text.put(word);
    text::put_numbers(text, list);
    text.put(mark);
    text::put_hex(text, bytes);
    text.put(last);
}

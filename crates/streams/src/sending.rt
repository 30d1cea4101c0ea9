// Output from a buffer.
ghost use Rattle.std.specs.Prelude.{◌≡◌};
ghost use Rattle.adding.specs.Added.{filled};
ghost use Rattle.streams.specs.Sent.{sent, sent_front};

use adding::{Text, within};
use std::io::Write;

// Where the text so far leaves less room than asked for, it is written, and the next text begins at the buffer's start. What a failed write left
// unwritten is lost.
pub fn send<W: Write>(output: &mut W, text: &mut Text, room: usize)
    ensures same { text.new.bytes.ghost_name ≡ text.old.bytes.ghost_name }
    ensures value { filled text.new ≡ sent (filled text.old) room }
{
    if text.room() < room {
        let _ = output.write_all(text.as_bytes());
        text.clear();
    }
}

// The same of text that stands at the start of a slice that is lent for reading. The answer is where the text then ends.
pub fn send_front<W: Write>(output: &mut W, out: &[u8], at: usize, room: usize) -> usize
    ensures { result ≡ sent_front out.now at room }
{
    let end = within(at, out);
    if room <= out.len() - end {
        return end;
    }
    let _ = output.write_all(&out[..end]);
    0
}

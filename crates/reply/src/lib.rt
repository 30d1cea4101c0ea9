// Writing each message into a lent buffer: the trimmed payload at its start, the rest unchanged, the length answered; it reads back as the
// message. A buffer that is shorter than the message's full length stays as it is.
#![tactic(auto)]

ghost use Rattle.rules.specs.Layouts.{layout_of, text_chars};
ghost use Rattle.rules.specs.Messages.{statustext};
ghost use Rattle.trimming.specs.Written.{Written};
ghost use Rattle.reply.specs.Written.{Wrote, Taken};

use payloads::Written;
pub use payloads::no_such_item;
use std::convert::AsSlice;
use trimming::write_trimmed;
use wire::{Statustext, full_of};

// A message, whichever it is of those that are written here.
pub fn write<M: Written>(m: M, out: &mut [u8]) -> usize
    ensures { Wrote (M.message m) out.old out.new result }
{
    let bytes = m.bytes();
    write_trimmed(M::ID, bytes.as_slice(), out)
}

// A message of this id whose bytes are lent; bytes that are not of its full length are not taken.
pub fn write_bytes(id: u32, bytes: &[u8], out: &mut [u8]) -> usize
    ensures { Taken (layout_of id).full bytes.now (Written bytes.now out.old out.new result) out.old out.new result }
{
    if bytes.len() == 0 {
        return 0;
    }
    if bytes.len() != full_of(id) {
        return 0;
    }
    write_trimmed(id, bytes, out)
}

// A STATUSTEXT whose text is lent; a text that is not of 50 characters is not taken.
pub fn write_text(severity: u8, text: &[u8], id: u16, chunk: u8, out: &mut [u8]) -> usize
    ensures { Taken text_chars text.now (Wrote (statustext severity text.now id chunk) out.old out.new result) out.old out.new result }
{
    let Ok(text) = text.try_into() else {
        return 0;
    };
    let message = Statustext {
        severity,
        text,
        id,
        chunk,
    };
    write(message, out)
}

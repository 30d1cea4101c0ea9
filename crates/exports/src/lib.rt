// What a program in another language links: functions by C's conventions over numbers and lent slices, a slice as its address and its length. None asks anything
// of its caller but what the types say, that the slices are there and share no memory.
#![tactic(auto)]

ghost use Rattle.std.specs.Prelude.{◌≡◌, length};
ghost use Rattle.rules.specs.Payload.{trim};
ghost use Rattle.rules.specs.Layouts.{layout_of, statustext_id, text_chars};
ghost use Rattle.rules.specs.Messages.{statustext};
ghost use Rattle.trimming.specs.Written.{Written};
ghost use Rattle.reply.specs.Written.{Wrote, Taken};

use reply::{write_bytes, write_text};
use trimming::trimmed_len;
use wire::STATUSTEXT_ID;

// How many bytes are left of these where trailing zeros are dropped.
#[unsafe(no_mangle)]
pub extern "C" fn douzanelh_trimmed_length(bytes: &[u8]) -> usize
    ensures { result ≡ length (trim bytes.now) }
{
    trimmed_len(bytes)
}

// Writes a STATUSTEXT's bytes, trimmed, and answers how many.
#[unsafe(no_mangle)]
pub extern "C" fn douzanelh_trim_statustext(bytes: &[u8], out: &mut [u8]) -> usize
    ensures { Taken (layout_of statustext_id).full bytes.now (Written bytes.now out.old out.new result) out.old out.new result }
{
    write_bytes(STATUSTEXT_ID, bytes, out)
}

// Writes a STATUSTEXT of these fields, trimmed, and answers how many bytes.
#[unsafe(no_mangle)]
pub extern "C" fn douzanelh_write_statustext(
    severity: u8,
    text: &[u8],
    id: u16,
    chunk: u8,
    out: &mut [u8],
) -> usize
    ensures { Taken text_chars text.now (Wrote (statustext severity text.now id chunk) out.old out.new result) out.old out.new result }
{
    write_text(severity, text, id, chunk, out)
}

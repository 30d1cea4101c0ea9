// Input in pieces, into a buffer.
ghost use Rattle.std.specs.Prelude.{◌+◌, ◌≤◌, ◌≡◌, ◌&&◌, leb, length};
ghost use Rattle.streams.specs.Unread.{Moved, ReadBehind, ReadOn};

use adding::within;
use std::io::Read;

// The part of a buffer that is read and not yet used.
#[derive(Clone, Copy)]
pub struct Unread {
    pub at: usize,
    pub end: usize,
}

// The unread bytes go to the start. How many there are.
fn move_front(buffer: &mut [u8], unread: Unread) -> usize
    ensures { Moved buffer.old unread.at unread.end buffer.new result }
{
    let at = unread.at;
    let stop = within(unread.end, buffer);
    if stop <= at {
        return 0;
    }
    buffer.copy_within(at..stop, 0);
    stop - at
}

// One read, for which a failed one gives no bytes, as the input's end does.
fn read_some<R: Read>(input: &mut R, buffer: &mut [u8]) -> usize
    ensures { result ≤ length buffer.new }
{
    input.read(buffer).unwrap_or(0)
}

// The input goes into the buffer from its start on, until it is full, or the input ends or fails. How many bytes came. (`read_exact` does not tell it.)
fn read_full<R: Read>(input: &mut R, buffer: &mut [u8]) -> usize
    ensures { result ≤ length buffer.new }
{
    let mut done = 0;
    while done < buffer.len() {
        let n = read_some(input, &mut buffer[done..]);
        if n == 0 {
            break;
        }
        done += n;
    }
    done
}

// The input goes into the buffer from a place on, as far as there is room or input. How many bytes came.
fn read_behind<R: Read>(input: &mut R, buffer: &mut [u8], at: usize) -> usize
    requires { at ≤ length buffer.old }
    ensures { ReadBehind buffer.old at buffer.new result }
{
    read_full(input, &mut buffer[at..])
}

// Whether n bytes are unread.
fn enough(buffer: &[u8], unread: Unread, n: usize) -> bool
    ensures { result ≡ (leb (n + unread.at) unread.end && leb unread.end (length buffer.now)) }
{
    if unread.end < unread.at {
        return false;
    }
    (n <= unread.end - unread.at) & (unread.end <= buffer.len())
}

// Unless n bytes are unread, those that are go to the buffer's start, and the input is read behind them: as much as there is room
// for, or all that is left of it. A failed read is the input's end.
pub fn read_on<R: Read>(input: &mut R, buffer: &mut [u8], unread: Unread, n: usize) -> Unread
    ensures { ReadOn buffer.old unread.at unread.end n buffer.new result.at result.end }
{
    if enough(buffer, unread, n) {
        return unread;
    }
    let kept = move_front(buffer, unread);
    let more = read_behind(input, buffer, kept);
    Unread {
        at: 0,
        end: kept + more,
    }
}

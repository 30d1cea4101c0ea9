// Plays a call script from standard input over the service: makes its calls, and prints their lines.
#![tactic(auto)]

mod play;

use play::Arrays;
use script::{HEADER_BYTES, MOST_PAYLOAD};
use streams::Unread;
use text::Text;

// The longest record, and the buffer that records are read into.
const MOST_RECORD: usize = HEADER_BYTES + MOST_PAYLOAD;

const INPUT: usize = 65536;

// More than the lines of any record take, a dump of full plans and uploads included, and the buffer of lines.
const MOST_LINES: usize = 61440;

const OUTPUT: usize = 131072;

// A proved loop has to end, and nothing says that a script does. So the records are counted, up to a number that no run reaches.
fn main(rt: HostRuntime) {
    let mut stdin = rt.stdin();
    let mut stdout = rt.stdout();
    let mut input = [0u8; INPUT];
    let mut output = [0u8; OUTPUT];
    let mut text = Text::new(&mut output);
    let mut arrays = Arrays::new();
    let mut state = service::fresh(false);
    let mut unread = Unread { at: 0, end: 0 };
    for _ in 0..u64::MAX {
        unread = streams::read_on(&mut stdin, &mut input, unread, MOST_RECORD);
        streams::send(&mut stdout, &mut text, MOST_LINES);
        let bytes = text::part(&input, unread.at, play::left(unread));
        let next = script::next_record(bytes);
        lines::put_stop(&mut text, next);
        let Ok(Some(record)) = next else {
            break;
        };
        let payload = text::part(bytes, HEADER_BYTES, record.len);
        state = play::play(record, payload, &mut text, &mut arrays, state);
        unread = play::past(unread, record);
    }
    streams::send(&mut stdout, &mut text, usize::MAX);
}

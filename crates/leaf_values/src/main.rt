// What no call of the service shows, as lines that are compared with the file `stdout`: the fields of MAVLink's own test values as they are read,
// their bytes as they are written, payloads of every length read and written again, buffers that are too short, whole numbers beyond
// every rule's range, and patterns without a value.
#![tactic(auto)]

mod cases;
mod lengths;
mod messages;
mod output;
mod test_payloads;
mod wholes;

use text::Text;

const OUTPUT: usize = 8192;

fn main(rt: HostRuntime) {
    let mut stdout = rt.stdout();
    let mut output = [0u8; OUTPUT];
    let mut text = Text::new(&mut output);
    for i in 0..cases::COUNT {
        output::put_line(&mut text, cases::case_of(i));
    }
    streams::send(&mut stdout, &mut text, usize::MAX);
}

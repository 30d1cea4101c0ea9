// Standard output from a buffer, and standard input into one, in pieces.
#![tactic(auto)]

mod reading;
mod sending;

pub use reading::{Unread, read_on};
pub use sending::{send, send_front};

// The steps of one kind's upload, what they do to the state, and what is said back. Everything here speaks of one plan at a time; its kind does not matter.
#![tactic(auto)]

use limits::Fault;
use plan::Plan;

mod counters;
pub mod turns;
pub mod updates;
pub mod uploads;

// What a handler says to a station about its kind: nothing, an ACK that accepts with a plan number or says a fault, an ACK of any result with any number, or a
// request of an item.
#[derive(Clone, Copy)]
pub enum Say {
    Silent,
    Ack(Result<u32, Fault>),
    AckOf(u8, u32),
    Ask(u16),
}

// What a message or a timer call does to the state, where it does anything.
#[derive(Clone, Copy)]
pub enum Effect {
    Nothing,
    // The plan of the kind keeps its items, and its upload is another.
    Turns(Plan),
    // The plan of the kind is replaced or emptied.
    Renews(Plan),
    // A part of its items is replaced.
    Changes(Plan),
    // The plan of every kind is emptied.
    EmptiesAll,
    // An item of the flight plan becomes current.
    Chooses(u16),
}

// What a handler of one plan does, and what it says.
#[derive(Clone, Copy)]
pub struct Turned {
    pub effect: Effect,
    pub say: Say,
}

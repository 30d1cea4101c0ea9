// The mission item as a struct by value, made of its patterns and numbers, with what the patterns stand for, and its 38 bytes. Judging it is left to item_rules.
#![tactic(auto)]

mod meaning;
mod payload;
mod read_item;

pub use meaning::made;
pub use payload::{item_at, item_bytes};
pub use read_item::ReadItem;

// Params, x, y and z as values, with their 32-bit patterns beside them: a NaN's bits do not survive an f32. Nothing ties the values to the patterns: that is told of
// a ReadItem. The kind is the number of the message, which may be any.
#[derive(Clone, Copy)]
pub struct Item {
    pub param1: f32,
    pub param2: f32,
    pub param3: f32,
    pub param4: f32,
    pub z: f32,
    pub x: i32,
    pub y: i32,
    pub bits1: u32,
    pub bits2: u32,
    pub bits3: u32,
    pub bits4: u32,
    pub bits_x: u32,
    pub bits_y: u32,
    pub bits_z: u32,
    pub seq: u16,
    pub command: u16,
    pub frame: u8,
    pub autocontinue: u8,
    pub kind: u8,
}

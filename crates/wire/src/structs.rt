// A struct for each message that is read or written here. Fields as MAVLink has them, numbers all, since a message may have any;
// `number` is the plan number.
use item::Item;

// MISSION_WRITE_PARTIAL_LIST; start and end as the patterns of signed numbers.
#[derive(Clone, Copy)]
pub struct PartialList {
    pub start: u16,
    pub end: u16,
    pub system: u8,
    pub component: u8,
    pub kind: u8,
}

#[derive(Clone, Copy)]
pub struct SetCurrent {
    pub seq: u16,
    pub system: u8,
    pub component: u8,
}

#[derive(Clone, Copy)]
pub struct Current {
    pub seq: u16,
    pub total: u16,
    pub state: u8,
    pub mode: u8,
    pub mission: u32,
    pub fence: u32,
    pub rally: u32,
}

#[derive(Clone, Copy)]
pub struct RequestList {
    pub system: u8,
    pub component: u8,
    pub kind: u8,
}

#[derive(Clone, Copy)]
pub struct Count {
    pub count: u16,
    pub system: u8,
    pub component: u8,
    pub kind: u8,
    pub number: u32,
}

#[derive(Clone, Copy)]
pub struct ClearAll {
    pub system: u8,
    pub component: u8,
    pub kind: u8,
}

#[derive(Clone, Copy)]
pub struct Ack {
    pub system: u8,
    pub component: u8,
    pub result: u8,
    pub kind: u8,
    pub number: u32,
}

#[derive(Clone, Copy)]
pub struct RequestInt {
    pub seq: u16,
    pub system: u8,
    pub component: u8,
    pub kind: u8,
}

#[derive(Clone, Copy)]
pub struct ItemInt {
    pub system: u8,
    pub component: u8,
    pub current: u8,
    pub item: Item,
}

#[derive(Clone, Copy)]
pub struct Statustext {
    pub severity: u8,
    pub text: [u8; 50],
    pub id: u16,
    pub chunk: u8,
}

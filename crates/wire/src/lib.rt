// MAVLink payloads: a struct for each message read or written here, and reading each from its own bytes, which the table of messages gives. Writing is left to the
// crate reply, and what a message does to others.
#![tactic(auto)]

mod read;
mod structs;

pub use message_table::{
    ACK_ID, CLEAR_ALL_ID, COUNT_ID, CURRENT_ID, ITEM_INT_ID, OWN_BYTES, PARTIAL_LIST_ID,
    REQUEST_INT_ID, REQUEST_LIST_ID, Received, SET_CURRENT_ID, STATUSTEXT_ID, full_of, receive,
};
pub use read::{
    read_ack, read_clear_all, read_count, read_item_int, read_partial_list, read_request_int,
    read_request_list, read_set_current,
};
pub use structs::{
    Ack, ClearAll, Count, Current, ItemInt, PartialList, RequestInt, RequestList, SetCurrent,
    Statustext,
};

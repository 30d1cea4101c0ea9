// The bytes of each message that is written here, all of them, little-endian.
#![tactic(auto)]

ghost use Rattle.std.specs.Prelude.{◌≡◌, ℕ, ◌<◌, length};
ghost use Rattle.rules.specs.Layouts.{current_id, count_id, ack_id, request_int_id, item_int_id, statustext_id};
ghost use Rattle.rules.specs.Messages.{Message, id_of};
ghost use Rattle.rules.specs.Step.{refusal_text};
ghost use Rattle.wire.specs.Structs.{current_message, count_message, ack_message, request_int_message, item_int_message, statustext_message};
ghost use Rattle.fields.specs.Packed.{BytesOf};
ghost use Rattle.std.proofs.Math.Path.{refl};

use copying::copy;
use fields::{bytes16, bytes32};
use item::item_bytes;
use std::convert::AsSlice;
use wire::{
    ACK_ID, Ack, COUNT_ID, CURRENT_ID, Count, Current, ITEM_INT_ID, ItemInt, REQUEST_INT_ID,
    RequestInt, STATUSTEXT_ID, Statustext,
};

// A message that is written here: the rules' message that it is, its id, and its bytes, of which there are some.
pub trait Written {
    ghost message: { Self → Message };

    ghost ID: { ℕ };

    const ID: u32;

    type Bytes: AsSlice<u8> + Drop;

    fn bytes(self) -> Self::Bytes
        ensures all { BytesOf (message self) (Self.Bytes.items result) }
        ensures some { 0 < length (Self.Bytes.items result) };

    ghost id_is: { (m : Self) → id_of (message m) ≡ ID };
}

impl Written for Current {
    type Bytes = [u8; 18];

    const ID: u32 = CURRENT_ID;

    ghost message = { current_message };

    ghost ID = { current_id };

    ghost id_is = { λ m. refl };

    fn bytes(self) -> [u8; 18] {
        let seq = bytes16(self.seq);
        let total = bytes16(self.total);
        let a = bytes32(self.mission);
        let b = bytes32(self.fence);
        let c = bytes32(self.rally);
        [
            seq[0], seq[1], total[0], total[1], self.state, self.mode, a[0], a[1], a[2], a[3],
            b[0], b[1], b[2], b[3], c[0], c[1], c[2], c[3],
        ]
    }
}

impl Written for Count {
    type Bytes = [u8; 9];

    const ID: u32 = COUNT_ID;

    ghost message = { count_message };

    ghost ID = { count_id };

    ghost id_is = { λ m. refl };

    fn bytes(self) -> [u8; 9] {
        let count = bytes16(self.count);
        let number = bytes32(self.number);
        [
            count[0],
            count[1],
            self.system,
            self.component,
            self.kind,
            number[0],
            number[1],
            number[2],
            number[3],
        ]
    }
}

impl Written for Ack {
    type Bytes = [u8; 8];

    const ID: u32 = ACK_ID;

    ghost message = { ack_message };

    ghost ID = { ack_id };

    ghost id_is = { λ m. refl };

    fn bytes(self) -> [u8; 8] {
        let number = bytes32(self.number);
        [
            self.system,
            self.component,
            self.result,
            self.kind,
            number[0],
            number[1],
            number[2],
            number[3],
        ]
    }
}

impl Written for RequestInt {
    type Bytes = [u8; 5];

    const ID: u32 = REQUEST_INT_ID;

    ghost message = { request_int_message };

    ghost ID = { request_int_id };

    ghost id_is = { λ m. refl };

    fn bytes(self) -> [u8; 5] {
        let seq = bytes16(self.seq);
        [seq[0], seq[1], self.system, self.component, self.kind]
    }
}

impl Written for ItemInt {
    type Bytes = [u8; 38];

    const ID: u32 = ITEM_INT_ID;

    ghost message = { item_int_message };

    ghost ID = { item_int_id };

    ghost id_is = { λ m. refl };

    fn bytes(self) -> [u8; 38] {
        item_bytes(self.system, self.component, self.current, self.item)
    }
}

impl Written for Statustext {
    type Bytes = [u8; 54];

    const ID: u32 = STATUSTEXT_ID;

    ghost message = { statustext_message };

    ghost ID = { statustext_id };

    ghost id_is = { λ m. refl };

    fn bytes(self) -> [u8; 54] {
        let id = bytes16(self.id);
        let mut all = [0u8; 54];
        all[0] = self.severity;
        all[51] = id[0];
        all[52] = id[1];
        all[53] = self.chunk;
        copy(&self.text, 50, &mut all, 1);
        all
    }
}

// The STATUSTEXT that answers a SET_CURRENT of an item that is not there: a warning, id and chunk 0.
pub fn no_such_item() -> Statustext
    ensures { statustext_message result ≡ refusal_text }
{
    let mut text = [0u8; 50];
    text[..20].copy_from_slice(b"no such mission item");
    Statustext {
        severity: 4,
        text,
        id: 0,
        chunk: 0,
    }
}

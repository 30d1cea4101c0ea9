// An item made of its patterns and numbers, and what its params mean to the rules.
ghost use Rattle.std.specs.Prelude.{◌≡◌};
ghost use Rattle.rules.specs.Items.{is_jump};
ghost use Rattle.rules.specs.NextCommand.{repeat_of};
ghost use Rattle.rules.specs.Values.{float, whole_of, whole_number};
ghost use Rattle.item.specs.Patterns.{item_for, item_with, patterns};

use crate::{Item, ReadItem};
use limits::JUMP;
use values::{NotWhole, float_of, signed_of};

// The item of these patterns and numbers.
pub fn made(
    bits1: u32,
    bits2: u32,
    bits3: u32,
    bits4: u32,
    bits_x: u32,
    bits_y: u32,
    bits_z: u32,
    seq: u16,
    command: u16,
    frame: u8,
    autocontinue: u8,
    kind: u8,
) -> Item
    ensures { result ≡ item_for (item_with bits1 bits2 bits3 bits4 bits_x bits_y bits_z seq command frame autocontinue kind) }
{
    Item {
        param1: float_of(bits1),
        param2: float_of(bits2),
        param3: float_of(bits3),
        param4: float_of(bits4),
        z: float_of(bits_z),
        x: signed_of(bits_x),
        y: signed_of(bits_y),
        bits1,
        bits2,
        bits3,
        bits4,
        bits_x,
        bits_y,
        bits_z,
        seq,
        command,
        frame,
        autocontinue,
        kind,
    }
}

impl Item {
    pub fn is_jump(self) -> bool
        ensures { result ≡ is_jump (patterns self) }
    {
        self.command == JUMP
    }
}

impl ReadItem {
    // Param 1 as a number: a jump's target, a servo's channel, a vertex's count of vertices. 0 where it is none that is at least 0.
    pub fn number1(self) -> u32
        ensures { result ≡ whole_number (whole_of (float (patterns self.plain).param1)) }
    {
        values::number_of(self.plain.param1)
    }

    // Param 2 as a number: a servo's pulse. 0 where it is none that is at least 0. Beside the one of param 1, since no caller has a param's number at hand.
    pub fn number2(self) -> u32
        ensures { result ≡ whole_number (whole_of (float (patterns self.plain).param2)) }
    {
        values::number_of(self.plain.param2)
    }

    // A jump's repeat: 1 where param 2 has no value.
    pub fn repeat(self) -> i32
        ensures { result ≡ repeat_of (patterns self.plain) }
    {
        match values::whole_of(self.plain.param2) {
            Ok(times) => times,
            Err(NotWhole::NoValue) => 1,
            Err(NotWhole::Fraction) => 0,
        }
    }
}

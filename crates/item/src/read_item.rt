// An item whose values are those of its patterns, as one that was read is. What judges or flies an item takes one.
ghost use Rattle.std.specs.Prelude.{◌≡◌};
ghost use Rattle.rules.specs.Values.{float, signed};
ghost use Rattle.item.specs.Patterns.{item_for, patterns};

use crate::Item;

#[derive(Clone, Copy)]
pub struct ReadItem {
    pub plain: Item,
    ghost values: { plain ≡ item_for (patterns plain) },
}

impl ReadItem {
    pub fn param1(self) -> f32
        ensures { result ≡ float self.plain.bits1 }
    {
        self.plain.param1
    }

    pub fn param2(self) -> f32
        ensures { result ≡ float self.plain.bits2 }
    {
        self.plain.param2
    }

    pub fn param3(self) -> f32
        ensures { result ≡ float self.plain.bits3 }
    {
        self.plain.param3
    }

    pub fn param4(self) -> f32
        ensures { result ≡ float self.plain.bits4 }
    {
        self.plain.param4
    }

    pub fn z(self) -> f32
        ensures { result ≡ float self.plain.bits_z }
    {
        self.plain.z
    }

    pub fn x(self) -> i32
        ensures { result ≡ signed self.plain.bits_x }
    {
        self.plain.x
    }

    pub fn y(self) -> i32
        ensures { result ≡ signed self.plain.bits_y }
    {
        self.plain.y
    }
}

// The flight plan that a search goes over.
ghost use Rattle.std.specs.Prelude.{◌≡◌, ◌≤◌};
ghost use Rattle.rules.specs.Limits.{flight, size_of};
ghost use Rattle.limits.specs.Kinds.{kind_number};

use places::Items;

// Whether item 0 may be home, and the plan: the flight items in a half of the store, and how many of them it has.
#[derive(Clone, Copy)]
pub struct Flight<'a> {
    pub home: bool,
    pub items: Items<'a>,
    pub len: u16,
    ghost flown: { kind_number items.kind ≡ flight },
    ghost within: { len ≤ size_of flight },
}

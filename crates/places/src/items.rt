// The items of a kind in a half of a store.
ghost use Rattle.std.specs.Prelude.{◌≤◌, length};
ghost use Rattle.rules.specs.Limits.{store_words};

use limits::Kind;

#[derive(Clone, Copy)]
pub struct Items<'a> {
    pub store: &'a [u32],
    pub kind: Kind,
    pub half: bool,
    ghost whole: { store_words ≤ length store.now },
}

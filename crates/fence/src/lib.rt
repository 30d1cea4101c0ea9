// The rule on a whole fence, read from the items in the store.
#![tactic(auto)]

ghost use Rattle.std.specs.Prelude.{◌≡◌, ◌≤◌, length};
ghost use Rattle.rules.specs.Limits.{fence, size_of, store_words};
ghost use Rattle.rules.specs.Fence.{between, run_with, read_items, fence_ok};
ghost use Rattle.limits.specs.Kinds.{kind_number};
ghost use Rattle.places.specs.Forms.{words, items_in};
ghost use Rattle.places.specs.KindItems.{first_items};
ghost use Rattle.fence.specs.FenceReading.{open_reading, reading_of, read_as};

use limits::{Kind, MAX_RETURN_POINTS};
use places::Items;
use std::num::NonZeroU32;
use values::{float_of, number_of};

const RETURN_POINT: u16 = 5000;

const INCLUSION_VERTEX: u16 = 5001;

const EXCLUSION_VERTEX: u16 = 5002;

// An open run: how many vertices are still to come, and the command and the number of vertices of its first.
#[derive(Clone, Copy)]
struct OpenRun {
    left: NonZeroU32,
    command: u16,
    vertices: u32,
}

// The rule is broken.
#[derive(Clone, Copy)]
struct Broken;

// The run with this many vertices to come; none is open where they are 0.
#[tactic(auto, unfolding(rules::specs::Fence::run_with))]
fn run_with(left: u32, command: u16, vertices: u32) -> Option<OpenRun>
    ensures { open_reading result ≡ run_with left command vertices }
{
    let left = NonZeroU32::new(left)?;
    Some(OpenRun {
        left,
        command,
        vertices,
    })
}

// Reading one more item.
#[tactic(auto, unfolding(crate::specs::FenceReading::read_as))]
fn read_item(run: Option<OpenRun>, command: u16, vertices: u32) -> Result<Option<OpenRun>, Broken>
    ensures { reading_of result ≡ read_as (open_reading run) command vertices }
{
    let vertex = (command == INCLUSION_VERTEX) | (command == EXCLUSION_VERTEX);
    match run {
        None if !vertex => Ok(None),
        None if vertices == 0 => Err(Broken),
        None => Ok(run_with(vertices - 1, command, vertices)),
        Some(open) if vertex & (command == open.command) & (vertices == open.vertices) => {
            Ok(run_with(open.left.get() - 1, command, vertices))
        }
        Some(_) => Err(Broken),
    }
}

// Reading the first n of some items.
fn read_items(items: Items<'_>, n: u16) -> Result<Option<OpenRun>, Broken>
    requires { n ≤ size_of (kind_number items.kind) }
    ensures { reading_of result ≡ read_items between (first_items items.entry n) }
{
    let mut run = None;
    for i in 0..n {
        let vertices = number_of(float_of(items.param1(i)));
        run = read_item(run, items.command(i), vertices)?;
    }
    Ok(run)
}

// Whether the first n fence items of a half keep the rule.
pub fn fence_ok(store: &[u32], half: bool, n: u16) -> bool
    requires { (store_words ≤ length store.now) × (n ≤ size_of fence) }
    ensures { result ≡ fence_ok (items_in words store.now half fence n) }
{
    let items = Items {
        store,
        kind: Kind::Fence,
        half,
    };
    let points = items.with_command(n, RETURN_POINT);
    let whole = read_items(items, n).is_ok_and(|run| run.is_none());
    whole & (points <= MAX_RETURN_POINTS)
}

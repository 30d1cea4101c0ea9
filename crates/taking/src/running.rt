// A running upload beside the plan that it is to change.
ghost use Rattle.std.specs.Prelude.{◌≡◌, ◌≤◌, ◌<◌, false};
ghost use Rattle.rules.specs.Limits.{size_of};
ghost use Rattle.limits.specs.Kinds.{kind_number};

use limits::Kind;
use plan::{Plan, Run};

// The kind, its plan, and the run of the plan's upload, whose numbers are in their ranges.
#[derive(Clone, Copy)]
pub struct Running {
    pub kind: Kind,
    pub plan: Plan,
    pub run: Run,
    ghost fits: { run.count ≤ size_of (kind_number kind) },
    ghost begun: { run.first ≤ run.next },
    ghost upto: { run.next ≤ run.last },
    ghost inside: { run.last < run.count },
    ghost from_start: { run.partial ≡ false → run.first ≡ 0 },
}

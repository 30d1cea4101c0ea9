// The ranges of outcome 15, over the numbers of a state.
#![tactic(auto)]

ghost use Rattle.std.specs.Prelude.{◌≡◌};
ghost use Rattle.rules.specs.Limits.{flight, fence, rally, size_of};
ghost use Rattle.rules.specs.Model.{task_in_range};
ghost use Rattle.limits.specs.Kinds.{kind_number};
ghost use Rattle.plan.specs.View.{task_in, plan_of};
ghost use Rattle.ranges.specs.Ranges.{run_ranged, upload_ranged, plan_ranged, counts_ranged, all_ranged};

use limits::{JUMP_COUNTS, Kind, MAX_REPEATS, MAX_RUNS};
use places::size_of;
use plan::{Plan, Run, State};

// The first, last and next number of an upload, beside a plan of `len` items. Of a part the count is that length; a whole one brings every number below its count.
#[tactic(auto, unfolding(rules::specs::Model::task_in_range))]
fn task_ranged(run: Run, len: u16) -> bool
    ensures { result ≡ task_in_range len (task_in run) run.next }
{
    if run.partial {
        return (run.count == len)
            & (run.first <= run.next)
            & (run.next <= run.last)
            & (run.last < run.count);
    }
    if run.count <= run.next {
        return false;
    }
    (run.first == 0) & (run.last == run.count - 1)
}

fn run_ranged(run: Run, size: u16, len: u16) -> bool
    ensures { result ≡ run_ranged size len run }
{
    (1 <= run.count) & (run.count <= size) & task_ranged(run, len) & (run.repeats <= MAX_REPEATS)
}

fn upload_ranged(upload: Option<Run>, size: u16, len: u16) -> bool
    ensures { result ≡ upload_ranged size len upload }
{
    upload.is_none_or(|run| run_ranged(run, size, len))
}

#[tactic(auto, unfolding(crate::specs::Ranges::plan_ranged))]
fn plan_ranged(plan: Plan, kind: Kind) -> bool
    ensures { result ≡ plan_ranged (size_of (kind_number kind)) plan }
{
    let size = size_of(kind.number());
    (plan.len <= size) & upload_ranged(plan.upload, size, plan.len)
}

// All are looked at: a fold that does not leave early is one that the compiler makes wide.
fn counts_ranged(counts: &[u16; JUMP_COUNTS]) -> bool
    ensures { result ≡ counts_ranged counts.now }
{
    counts.iter().fold(true, |ok, n| ok & (*n <= MAX_RUNS))
}

// Whether every number of a state is in its range.
pub fn ranged(state: &State) -> bool
    ensures { result ≡ all_ranged (plan_of state.now flight) (plan_of state.now fence) (plan_of state.now rally) state.now.current state.now.counts }
{
    let [flight, fence, rally] = state.plans;
    plan_ranged(flight, Kind::Flight)
        & plan_ranged(fence, Kind::Fence)
        & plan_ranged(rally, Kind::Rally)
        & ((state.current < flight.len) | (state.current == 0))
        & counts_ranged(&state.counts)
}

// Following jumps: at most 64 in one search.
ghost use Rattle.std.specs.Prelude.{◌≡◌, true, cond, ◌+◌, ◌≤◌, ◌<◌, get_or, set};
ghost use Rattle.rules.specs.Limits.{flight, size_of, max_followed, max_runs, max_jumps};
ghost use Rattle.rules.specs.NextCommand as rules;
ghost use Rattle.plan_search.specs.PlanItems.{flight_items};
ghost use Rattle.next_command.specs.Finding.{found_of, settled_as};

use command::Command;
use limits::{JUMP_COUNTS, MAX_FOLLOWED};
use plan_search::{Flight, Met};

// The item that becomes current and begun, and the counts then.
#[derive(Clone, Copy)]
pub struct Stand {
    pub n: u16,
    pub counts: [u16; JUMP_COUNTS],
}

// What a search finds: the answer, and where the search stops at an item, what it stands at.
#[derive(Clone, Copy)]
pub struct Found {
    pub stand: Option<Stand>,
    pub command: Command,
}

// Where no further jump may be followed.
fn settled(met: Met, counts: [u16; JUMP_COUNTS]) -> Found
    ensures { found_of result ≡ settled_as met counts }
{
    let (stand, command) = match met {
        Met::Ends(command) => (None, command),
        Met::Stands(n, command) => (Some(Stand { n, counts }), command),
        Met::Follows(_, _, _) => (None, Command::Stuck),
    };
    Found { stand, command }
}

// The counts after jump j is followed.
fn counted(counts: [u16; JUMP_COUNTS], j: u16, up: bool) -> [u16; JUMP_COUNTS]
    requires j_lt_max_jumps { j < max_jumps }
    requires j_bound { up ≡ true → get_or counts j 0 < max_runs }
    ensures { result ≡ set counts j (cond up (get_or counts j 0 + 1) (get_or counts j 0)) }
{
    let mut after = counts;
    if up {
        after[j as usize] += 1;
    }
    after
}

// The search from item n.
pub fn find(plan: Flight<'_>, counts: [u16; JUMP_COUNTS], from: u16) -> Found
    requires { from ≤ size_of flight }
    ensures { found_of result ≡ rules.search plan.entry.home max_followed (flight_items plan.entry) counts from }
{
    let mut runs = counts;
    let mut n = from;
    for _ in 0..MAX_FOLLOWED {
        let met = plan.meet(runs, n);
        let Met::Follows(j, target, up) = met else {
            return settled(met, runs);
        };
        let after = counted(runs, j, up);
        runs = after;
        n = target;
    }
    settled(plan.meet(runs, n), runs)
}

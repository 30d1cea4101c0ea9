// Clock readings and plan numbers: both are of 32 bits and run over.
ghost use Rattle.std.specs.Prelude.{◌≡◌};
ghost use Rattle.rules.specs.Model.{elapsed, next_number};

const HALF_CLOCK: u32 = 2147483648;

// The milliseconds since the last start of a timer. A reading that lies half the clock's values or more ahead of the start
// is one before it.
#[tactic(auto, unfolding(rules::specs::Model::elapsed))]
pub fn elapsed(clock: u32, started: u32) -> u32
    ensures { result ≡ elapsed clock started }
{
    let since = clock.wrapping_sub(started);
    if since < HALF_CLOCK {
        return since;
    }
    0
}

// The number of the plan after the one numbered n: one on, and never 0.
#[tactic(auto, unfolding(rules::specs::Model::next_number))]
pub fn next_number(n: u32) -> u32
    ensures { result ≡ next_number n }
{
    let next = n.wrapping_add(1);
    if next == 0 {
        return 1;
    }
    next
}

// What a host does between the calls: it sets a number of the state, and it writes items, for which it has to know where they stand.
#![tactic(auto)]

ghost use Rattle.std.specs.Prelude.{◌%◌, ◌≡◌, cond};
ghost use Rattle.host.specs.Pokes.{poked_run, poked_upload, poked_plan, poked_plans, poked_counts, poked_state};
ghost use Rattle.host.specs.Items.{item_word};

use limits::{JUMP_COUNTS, Kind};
use plan::{Plan, Run, State, Station};

#[tactic(auto, unfolding(crate::specs::Pokes::poked_run))]
fn poked_run(run: Run, field: u8, value: u32) -> Run
    ensures { result ≡ poked_run run field value }
{
    let byte = (value % 256) as u8;
    let short = (value % 65536) as u16;
    let from = run.from;
    match field {
        4 => Run {
            from: Station {
                system: byte,
                ..from
            },
            ..run
        },
        5 => Run {
            from: Station {
                component: byte,
                ..from
            },
            ..run
        },
        6 => Run {
            count: short,
            ..run
        },
        7 => Run { next: short, ..run },
        8 => Run {
            started: value,
            ..run
        },
        9 => Run {
            repeats: byte,
            ..run
        },
        13 => Run {
            partial: value != 0,
            ..run
        },
        14 => Run {
            first: short,
            ..run
        },
        15 => Run { last: short, ..run },
        _ => run,
    }
}

// An upload that starts has zeros.
const STARTED: Run = Run {
    from: Station {
        system: 0,
        component: 0,
    },
    count: 0,
    partial: false,
    repeats: 0,
    first: 0,
    last: 0,
    next: 0,
    started: 0,
};

// Field 3 is whether an upload runs: one that is set running while it does keeps its numbers. Every other field is a number of an upload that runs.
#[tactic(auto, unfolding(crate::specs::Pokes::poked_upload, crate::specs::Pokes::poked_run))]
fn poked_upload(upload: Option<Run>, field: u8, value: u32) -> Option<Run>
    ensures { result ≡ poked_upload upload field value }
{
    if field != 3 {
        return upload.map(|run| poked_run(run, field, value));
    }
    if value == 0 {
        None
    } else {
        Some(upload.unwrap_or(STARTED))
    }
}

#[tactic(auto, unfolding(crate::specs::Pokes::poked_plan))]
fn poked_plan(plan: Plan, field: u8, value: u32) -> Plan
    ensures { result ≡ poked_plan plan field value }
{
    let plan = Plan {
        upload: poked_upload(plan.upload, field, value),
        ..plan
    };
    match field {
        0 => Plan {
            len: (value % 65536) as u16,
            ..plan
        },
        1 => Plan {
            number: value,
            ..plan
        },
        2 => Plan {
            half: value % 2 == 1,
            ..plan
        },
        _ => plan,
    }
}

// Of the plans the one whose kind is the index.
#[tactic(auto, unfolding(crate::specs::Pokes::poked_plans))]
fn poked_plans(plans: [Plan; 3], field: u8, index: u8, value: u32) -> [Plan; 3]
    ensures { result ≡ poked_plans plans field index value }
{
    let mut after = plans;
    if let Ok(kind) = Kind::try_from(index) {
        after[kind as usize] = poked_plan(plans[kind as usize], field, value);
    }
    after
}

#[tactic(auto, unfolding(crate::specs::Pokes::poked_counts))]
fn poked_counts(counts: [u16; JUMP_COUNTS], field: u8, index: u8, value: u32) -> [u16; JUMP_COUNTS]
    ensures { result ≡ poked_counts counts field index value }
{
    let i = index as usize;
    let mut after = counts;
    if field == 12 && i < JUMP_COUNTS {
        after[i] = (value % 65536) as u16;
    }
    after
}

// The state with one number set; a value is cut to the number's width. The field and the index are a record's bytes, which may be any.
#[tactic(auto, unfolding(crate::specs::Pokes::poked_state))]
pub fn poked(state: State, field: u8, index: u8, value: u32) -> State
    ensures { result ≡ poked_state state field index value }
{
    let plans = state.plans;
    let counts = state.counts;
    State {
        plans: poked_plans(plans, field, index, value),
        current: if field == 10 {
            (value % 65536) as u16
        } else {
            state.current
        },
        begun: if field == 11 { value != 0 } else { state.begun },
        counts: poked_counts(counts, field, index, value),
        ..state
    }
}

// The store's word from which a host writes items, of the plan of a kind from number n on, in the half that the plan is in or in the other one. A kind that
// is none has no plan, and the store's first word stands for it.
#[tactic(auto, unfolding(crate::specs::Items::item_word))]
pub fn item_word(state: State, kind: u8, other: bool, n: u16) -> usize
    ensures { result ≡ item_word state kind other n }
{
    let Ok(kind) = Kind::try_from(kind) else {
        return 0;
    };
    let plan = state.plans[kind as usize];
    if other {
        return places::place_at(kind, !plan.half, n);
    }
    places::place_at(kind, plan.half, n)
}

// The documents' kinds and limits as constants of the code, and what is refused as enums. What each is called in the specifications is in
// crates/rules/specs/Limits.antt, of the commands in Items.antt.
#![tactic(auto)]

ghost use Rattle.std.specs.Prelude.{◌≡◌};
ghost use Rattle.limits.specs.Codes.{fault_code, refusal_code};
ghost use Rattle.limits.specs.Kinds.{kind_number, IsKindOf};

// The kinds of plan as numbers of a message, which may have any there; CLEAR_ALL may also speak of every kind.
pub const FLIGHT: u8 = 0;

pub const FENCE: u8 = 1;

pub const RALLY: u8 = 2;

pub const EVERY_KIND: u8 = 255;

// A kind of plan.
#[derive(Clone, Copy, PartialEq, Eq)]
pub enum Kind {
    Flight = 0,
    Fence = 1,
    Rally = 2,
}

impl Kind {
    pub fn number(self) -> u8
        ensures { result ≡ kind_number self }
    {
        self as u8
    }
}

// A number that is no kind's.
#[derive(Clone, Copy, PartialEq, Eq)]
pub struct NoKind;

impl TryFrom<u8> for Kind {
    type Error = NoKind;

    ghost try_from_gives = { IsKindOf };

    fn try_from(n: u8) -> Result<Kind, NoKind> {
        match n {
            FLIGHT => Ok(Kind::Flight),
            FENCE => Ok(Kind::Fence),
            RALLY => Ok(Kind::Rally),
            _ => Err(NoKind),
        }
    }
}

// The result of an ACK that accepts, beside those of `Fault`: in a message results are numbers.
pub const ACCEPTED: u8 = 0;

// Why an ACK does not accept: the result that it says.
#[derive(Clone, Copy, PartialEq, Eq)]
pub enum Fault {
    UnsupportedFrame = 2,
    Unsupported = 3,
    NoSpace = 4,
    Invalid = 5,
    InvalidParam1 = 6,
    InvalidParam2 = 7,
    InvalidX = 10,
    InvalidY = 11,
    InvalidZ = 12,
    InvalidSequence = 13,
    Denied = 14,
    Cancelled = 15,
}

impl Fault {
    pub fn code(self) -> u8
        ensures { result ≡ fault_code self }
    {
        self as u8
    }
}

// Why a call is refused: its outcome.
#[derive(Clone, Copy, PartialEq, Eq)]
pub enum Refusal {
    ShortReply = 10,
    EmptyPayload = 11,
    NotRead = 12,
    NotForUs = 13,
    ShortStore = 14,
    OutOfRange = 15,
}

impl Refusal {
    pub fn code(self) -> u8
        ensures { result ≡ refusal_code self }
    {
        self as u8
    }
}

// The outcome of a call that neither replies nor is refused, beside those of `Refusal`: calls tell their outcomes as numbers too.
pub const NO_REPLY: u8 = 1;

// The flight commands that other rules name.
pub const WAYPOINT: u16 = 16;

pub const RETURN_HOME: u16 = 20;

pub const DELAY: u16 = 112;

pub const DISTANCE: u16 = 114;

pub const YAW: u16 = 115;

pub const JUMP: u16 = 177;

pub const CHANGE_SPEED: u16 = 178;

pub const SET_SERVO: u16 = 183;

// How many jumps a flight plan has at most, how often one runs, and how many one search follows.
pub const MAX_JUMPS: u16 = 15;

// A count for each of them.
pub const JUMP_COUNTS: usize = MAX_JUMPS as usize;

pub const MAX_RUNS: u16 = 32767;

pub const MAX_FOLLOWED: u16 = 64;

// An upload's timer, and how often it asks again.
pub const EXPIRY_MS: u32 = 250;

pub const MAX_REPEATS: u8 = 5;

// Coordinates, in ten-millionths of a degree.
pub const X_LIMIT: i32 = 900_000_000;

pub const Y_LIMIT: i32 = 1_800_000_000;

// Return points of a fence.
pub const MAX_RETURN_POINTS: u16 = 1;

// Bytes: of an item that is sent, and of the reply buffer.
pub const ITEM_BYTES: usize = 38;

pub const REPLY_BYTES: usize = 54;

// Words: of an item that is stored, and of the store.
pub const ITEM_WORDS: usize = 8;

pub const STORE_WORDS: usize = 5632;

// In the last word of an item the command stands lowest; the frame and the autocontinue begin behind it.
pub const FRAME_UNIT: u32 = 0x1_0000;

pub const AUTOCONTINUE_UNIT: u32 = 0x100_0000;

// The kinds of records, and where a host writes, by their numbers.
ghost use Rattle.std.specs.Prelude.{◌≡◌};
ghost use Rattle.script.specs.Kinds.{kind_of, target_of};

// Why a script cannot be played on: a record that the end of input cuts, or one that cannot be played, with its number.
#[derive(Clone, Copy, PartialEq, Eq)]
pub enum Stop {
    Cut,
    Bad(u8),
}

#[derive(Clone, Copy, PartialEq, Eq)]
pub enum Kind {
    End,
    Message,
    Timer,
    Done,
    Dump,
    Fresh,
    Snap,
    Compare,
    Poke,
    Write,
    Move,
}

impl TryFrom<u8> for Kind {
    type Error = Stop;

    ghost try_from_gives = { λ n r. r ≡ kind_of n };

    fn try_from(n: u8) -> Result<Kind, Stop> {
        match n {
            0 => Ok(Kind::End),
            1 => Ok(Kind::Message),
            2 => Ok(Kind::Timer),
            3 => Ok(Kind::Done),
            4 => Ok(Kind::Dump),
            5 => Ok(Kind::Fresh),
            6 => Ok(Kind::Snap),
            7 => Ok(Kind::Compare),
            8 => Ok(Kind::Poke),
            9 => Ok(Kind::Write),
            18 => Ok(Kind::Move),
            _ => Err(Stop::Bad(n)),
        }
    }
}

// Where a record writes, by its b4: words of the store array, items of a plan in its half or in the other one, bytes of the old store.
#[derive(Clone, Copy, PartialEq, Eq)]
pub enum Target {
    Words,
    Plan,
    OtherHalf,
    Old,
}

#[derive(Clone, Copy, PartialEq, Eq)]
pub struct UnknownTarget;

impl TryFrom<u8> for Target {
    type Error = UnknownTarget;

    ghost try_from_gives = { λ n r. r ≡ target_of n };

    fn try_from(n: u8) -> Result<Target, UnknownTarget> {
        match n {
            0 => Ok(Target::Words),
            1 => Ok(Target::Plan),
            2 => Ok(Target::OtherHalf),
            3 => Ok(Target::Old),
            _ => Err(UnknownTarget),
        }
    }
}

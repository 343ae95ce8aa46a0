//! A pair of areas, and what was found of it.
ghost use Rattle.std.specs.Prelude.{◌≡◌};
ghost use Rattle.gate_area.specs.Standing.{first_of, second_of, other_of, fault_of};

use disk_model::{Area, Refused};

/// The two areas of the journal, or the two of the checkpoints.
#[derive(Clone, Copy, Debug, PartialEq, Eq)]
pub enum Pair {
    Journal,
    Check,
}

impl Pair {
    /// Its first area.
    pub fn first(self) -> Area
        ensures { result ≡ first_of self }
    {
        match self {
            Pair::Journal => Area::Journal0,
            Pair::Check => Area::Check2,
        }
    }

    /// Its second area.
    pub fn second(self) -> Area
        ensures { result ≡ second_of self }
    {
        match self {
            Pair::Journal => Area::Journal1,
            Pair::Check => Area::Check3,
        }
    }
}

/// The other area of its pair.
pub fn other(area: Area) -> Area
    ensures { result ≡ other_of area }
{
    match area {
        Area::Journal0 => Area::Journal1,
        Area::Journal1 => Area::Journal0,
        Area::Check2 => Area::Check3,
        Area::Check3 => Area::Check2,
    }
}

/// Which area of a pair stands, with its generation and its length; none where the pair is fresh.
#[derive(Clone, Copy, Debug, PartialEq, Eq)]
pub enum Standing {
    None,
    At {
        area: Area,
        generation: u64,
        len: u64,
    },
}

/// Why a pair can't be read: a call of the disk failed, a byte of an area can't be there, or memory was
/// wanting.
#[derive(Clone, Copy, Debug, PartialEq, Eq)]
pub enum SurveyFault {
    Disk,
    Damaged(Area, u64),
    Memory,
}

impl From<Refused> for SurveyFault {
    ghost from_gives = { λ refused fault. fault ≡ fault_of refused };

    fn from(refused: Refused) -> Self {
        match refused {
            Refused::Failed => SurveyFault::Disk,
            Refused::Memory => SurveyFault::Memory,
        }
    }
}

/// What the front of an area says: that it doesn't count, that it counts and a byte at this position can't be
/// there, or that it counts with this generation.
#[derive(Clone, Copy, Debug, PartialEq, Eq)]
pub enum Head {
    Closed,
    Spoilt(u64),
    Open(u64),
}

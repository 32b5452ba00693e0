// Why a call refuses, by document 01's list as the requests extend it.
ghost use Rattle.std.specs.Prelude.{◌≡◌};
ghost use Rattle.reader.specs.Refusals.{refusal_number, carrying_nothing};

// The refusals, by what is wrong.
#[derive(Clone, Copy, PartialEq, Eq)]
pub enum Refusal {
    BaseLength = 1,
    Letters = 2,
    Trailer = 3,
    Hierarchy = 4,
    Users = 5,
    Clauses = 6,
    Contexts = 7,
    Policies = 8,
    Exclusions = 9,
    Permission = 10,
    Context = 11,
    GroupLength = 12,
    Unknown = 13,
    Twice = 14,
    Ineligible = 15,
    Weightless = 16,
    Unmet = 17,
    ConflictRoom = 18,
    ReportRoom = 19,
    FullSheet = 20,
    Change = 21,
    Rules = 22,
    NotSigned = 23,
    OutOfDate = 24,
    Register = 25,
    Unvouched = 26,
    Threshold = 27,
    Queries = 28,
}

// Its number in the list.
impl From<Refusal> for u8 {
    ghost from_gives = { λ r n. n ≡ refusal_number r };

    fn from(refusal: Refusal) -> u8 {
        refusal as u8
    }
}

// A refusal with the number that it carries.
#[derive(Clone, Copy, PartialEq, Eq)]
pub struct Refused {
    pub refusal: Refusal,
    pub count: u32,
}

// All but 5 of one parameter and 18 carry 0.
impl From<Refusal> for Refused {
    ghost from_gives = { λ r carried. carried ≡ carrying_nothing r };

    fn from(refusal: Refusal) -> Refused {
        Refused { refusal, count: 0 }
    }
}

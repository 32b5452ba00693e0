// The table reader: where each table of a policy base lies, and the base check (refusals 1 to 9).
#![tactic(auto)]

ghost use Rattle.std.specs.Prelude.{◌≡◌};
ghost use Rattle.reader.specs.Tables.{table_of};
ghost use Rattle.reader.specs.Rules.{refusal_of};
ghost use Rattle.reader.specs.Refusals.{number_of, answer_from};

mod base;
pub mod bytes;
pub mod clauses;
pub mod codes;
pub mod conditions;
pub mod contexts;
mod policies;
mod records;
mod refusal;
mod tables;
pub mod trailer;
pub mod users;

pub use base::{Base, accept};
pub use policies::Policies;
pub use refusal::{Refusal, Refused};
pub use tables::Table;
use trailer::Frame;

// How many values a context's parameter has: minute, day, zone.
pub const RANGES: [u16; 3] = [1440, 7, 256];

// The answer of a call that also carries a number: 0 or the refusal, and the number.
#[derive(Clone, Copy)]
pub struct Answer {
    pub refusal: u8,
    pub count: u32,
}

// For C, and for the definitions.
impl From<Result<u32, Refused>> for Answer {
    ghost from_gives = { λ given answer. answer ≡ answer_from given };

    fn from(given: Result<u32, Refused>) -> Answer {
        match given {
            Ok(count) => Answer { refusal: 0, count },
            Err(refused) => Answer {
                refusal: u8::from(refused.refusal),
                count: refused.count,
            },
        }
    }
}

// Entry point: table t, that part of the lent base and no copy.
pub fn table(base: &[u8], t: usize) -> &[u8]
    ensures { result.now ≡ table_of base.now t }
{
    match Frame::of(base) {
        Ok(frame) if t < 7 => frame.part_at(t),
        _ => &base[0..0],
    }
}

// Entry point: the base check, refusals 1 to 9.
pub fn check(base: &[u8]) -> Result<(), Refusal>
    ensures { number_of result ≡ refusal_of base.now }
{
    accept(base)?;
    Ok(())
}

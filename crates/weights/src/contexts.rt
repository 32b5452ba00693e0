// Contexts: whether one is in range, and which context numbers hold at a minute, a day and a zone.
ghost use Rattle.std.specs.Prelude.{◌≡◌, false, ◌+◌, ◌*◌, ◌≤◌, ◌<◌, length};
ghost use Rattle.reader.specs.Fields.{context_length};
ghost use Rattle.reader.specs.Rules.{contexts_bad};
ghost use Rattle.weights.specs.Contexts.{out_of_range, value_of, context_clause_holds};
ghost use Rattle.weights.specs.Setting.{Holding};

use crate::{Context, operators, sets};
use reader::contexts::ContextCondition;
use reader::{RANGES, conditions};

// Inner: refusal 11.
#[tactic(auto, unfolding(crate::specs::Contexts::out_of_range))]
pub fn out_of_range(at: Context) -> bool
    ensures { result ≡ out_of_range at }
{
    (u32::from(RANGES[0]) <= at.minute)
        | (u32::from(RANGES[1]) <= at.day)
        | (u32::from(RANGES[2]) <= at.zone)
        | (u32::from(u16::MAX) < at.date)
}

// By the parameter's byte: an enum would be made of it by a match with as many arms, and then be matched by these.
#[tactic(auto, unfolding(crate::specs::Contexts::value_of))]
fn value_of(at: Context, parameter: u8) -> u32
    ensures { result ≡ value_of at parameter }
{
    match parameter {
        0 => at.minute,
        1 => at.day,
        _ => at.zone,
    }
}

fn clause_holds(c: &[u8], i: usize, at: Context) -> bool
    requires { (16 * i + 16 ≤ length c.now) × (context_length c.now i ≤ 3) }
    ensures { result ≡ context_clause_holds at c.now i }
{
    conditions::all_pass(c, i, |condition: ContextCondition| {
        let x = value_of(at, condition.parameter);
        operators::is_met(condition.operator, x, u32::from(condition.value))
    })
}

// Inner: the set of the context numbers that hold, by a table C that passed the check. Of bytes: the type of such a
// table is of a crate above (`related`), and asks for whole records too.
pub fn holding(c: &[u8], at: Context) -> u32
    requires { contexts_bad c.now ≡ false }
    ensures { Holding at c.now result }
{
    (0..c.len() / 16).fold(0, |s, i| {
        if clause_holds(c, i, at) {
            s | sets::bit(c[16 * i])
        } else {
            s
        }
    })
}

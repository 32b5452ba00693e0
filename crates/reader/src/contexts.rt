// The records of C: refusal 7.
ghost use Rattle.std.proofs.Common.{rules};
ghost use Rattle.std.specs.Prelude.{◌≡◌, ◌+◌, ◌*◌, ◌≤◌, ◌<◌, length};
ghost use Rattle.reader.specs.Fields.{context_parameter, context_operator, context_value};
ghost use Rattle.reader.specs.Rules.{context_condition_bad, some_nonzero, context_bad, contexts_bad};

use crate::conditions::{Condition, rest_bad};
use crate::{RANGES, bytes};

// Inner: a condition on a context.
#[derive(Clone, Copy, Default, PartialEq, Eq)]
pub struct ContextCondition {
    pub parameter: u8,
    pub operator: u8,
    pub value: u16,
}

impl Condition for ContextCondition {
    const SLOTS: usize = 3;

    ghost SLOTS = { 3 };

    ghost at = { λ c i j. record {
      parameter = context_parameter c i j;
      operator = context_operator c i j;
      value = context_value c i j;
    } };

    ghost bad = { λ R x. context_condition_bad x.parameter x.operator x.value };

    ghost nonzero = { λ x. some_nonzero x.parameter x.operator x.value };

    fn read(c: &[u8], i: usize, j: usize) -> ContextCondition {
        let at = 16 * i + 4 * j;
        ContextCondition {
            parameter: c[at + 2],
            operator: c[at + 3],
            value: bytes::get16(c, at + 4),
        }
    }

    #[tactic(auto, unfolding(crate::specs::Rules::context_condition_bad))]
    fn is_bad(self, _roles: u8) -> bool {
        2 < self.parameter || 5 < self.operator || RANGES[usize::from(self.parameter)] <= self.value
    }

    ghost blank = { Prim.search rules };
}

fn context_bad(c: &[u8], i: usize) -> bool
    requires { 16 * i + 16 ≤ length c.now }
    ensures { result ≡ context_bad c.now i }
{
    (15 < c[16 * i]) | rest_bad::<ContextCondition>(c, i, 0)
}

// Inner: refusal 7.
pub(crate) fn contexts_bad(c: &[u8]) -> bool
    ensures { result ≡ contexts_bad c.now }
{
    (0..c.len() / 16).any(|i| context_bad(c, i))
}

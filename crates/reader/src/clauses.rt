// The records of K: refusal 6.
ghost use Rattle.std.proofs.Common.{rules};
ghost use Rattle.std.specs.Prelude.{◌≡◌, ◌+◌, ◌*◌, ◌≤◌, ◌<◌, length};
ghost use Rattle.reader.specs.Fields.{condition_attribute, condition_operator, condition_value};
ghost use Rattle.reader.specs.Rules.{condition_bad, some_nonzero, clause_bad, clauses_bad};

use crate::conditions::{Condition, rest_bad};
use crate::trailer::Numbers;

// Inner: a condition on a group.
#[derive(Clone, Copy, Default, PartialEq, Eq)]
pub struct GroupCondition {
    pub attribute: u8,
    pub operator: u8,
    pub value: u8,
}

impl Condition for GroupCondition {
    const SLOTS: usize = 4;

    ghost SLOTS = { 4 };

    ghost at = { λ k i j. record {
      attribute = condition_attribute k i j;
      operator = condition_operator k i j;
      value = condition_value k i j;
    } };

    ghost bad = { λ R x. condition_bad R x.attribute x.operator x.value };

    ghost nonzero = { λ x. some_nonzero x.attribute x.operator x.value };

    fn read(k: &[u8], i: usize, j: usize) -> GroupCondition {
        let at = 16 * i + 3 * j;
        GroupCondition {
            attribute: k[at + 2],
            operator: k[at + 3],
            value: k[at + 4],
        }
    }

    // The attribute is a byte of the base, any of 256: an enum would test it before these tests do.
    fn is_bad(self, roles: u8) -> bool {
        if self.attribute < 3 {
            5 < self.operator
        } else {
            (self.attribute != 3) | (self.operator != 6) | (1 << roles <= u32::from(self.value))
        }
    }

    ghost blank = { Prim.search rules };
}

fn clause_bad(k: &[u8], i: usize, numbers: Numbers) -> bool
    requires { 16 * i + 16 ≤ length k.now }
    ensures { result ≡ clause_bad numbers.roles numbers.permissions k.now i }
{
    (numbers.permissions <= k[16 * i]) | rest_bad::<GroupCondition>(k, i, numbers.roles)
}

// Inner: refusal 6.
pub(crate) fn clauses_bad(k: &[u8], numbers: Numbers) -> bool
    ensures { result ≡ clauses_bad numbers.roles numbers.permissions k.now }
{
    (0..k.len() / 16).any(|i| clause_bad(k, i, numbers))
}

// The permission's condition on a group: on the number of entries, the sum of weights and the set of roles.
ghost use Rattle.std.specs.Prelude.{◌≡◌, ℕ, ◌+◌, ◌*◌, ◌≤◌, ◌<◌, length};
ghost use Rattle.reader.specs.Tables.{clauses, record_count};
ghost use Rattle.reader.specs.Fields.{clause_length};
ghost use Rattle.decision.specs.Conditions.{role_num, attribute, clause_holds, permission_holds};

use reader::clauses::GroupCondition;
use reader::conditions;

// Inner: role_num, the number of different roles in the set.
pub fn role_num(set: u8) -> u32
    ensures { result ≡ role_num set }
{
    set.count_ones()
}

// What conditions are asked of a group: how many entries it has, the sum of their weights and the set of their roles.
#[derive(Clone, Copy)]
pub struct Attributes {
    pub entries: u32,
    pub sum: u32,
    pub roles: u8,
}

impl Attributes {
    // By the attribute's byte: an enum would be made of it by a match with as many arms, and then be matched by these.
    fn attribute(self, a: u8) -> u32
        ensures { result ≡ attribute self.entries self.sum self.roles a }
    {
        match a {
            0 => self.entries,
            1 => self.sum,
            2 => role_num(self.roles),
            _ => self.roles as u32,
        }
    }
}

fn clause_holds(k: &[u8], i: usize, attributes: Attributes) -> bool
    requires { (16 * i + 16 ≤ length k.now) × (clause_length k.now i ≤ 4) }
    ensures { result ≡ clause_holds k.now attributes.entries attributes.sum attributes.roles i }
{
    conditions::all_pass(k, i, |condition: GroupCondition| {
        let x = attributes.attribute(condition.attribute);
        weights::operators::is_met(condition.operator, x, u32::from(condition.value))
    })
}

// Inner: the permission's condition, by a table K whose clauses have at most 4 conditions.
pub fn permission_holds(k: &[u8], permission: u8, attributes: Attributes) -> bool
    requires { (i : ℕ) → i < record_count clauses k.now → clause_length k.now i ≤ 4 }
    ensures { result ≡ permission_holds k.now permission attributes.entries attributes.sum attributes.roles }
{
    (0..k.len() / 16).any(|i| k[16 * i] == permission && clause_holds(k, i, attributes))
}

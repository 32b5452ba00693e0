// The table K, by the number of a clause and of its condition.
ghost use Rattle.std.specs.Prelude.{◌≡◌, ◌≤◌, ◌<◌, List, ℕ};
ghost use Rattle.reader.specs.Tables.{clauses, record_count};
ghost use Rattle.reader.specs.Fields.{clause_length, condition_attribute, condition_operator, condition_value};
ghost use Rattle.masks.specs.Clauses.{Checked};

use reader::clauses::GroupCondition;
use reader::conditions::{self, Condition};
use std::marker::Model;

// A table K that passes the check with some numbers of roles and permissions, seen as its bytes.
#[derive(Drop)]
pub struct GroupClauses<'a> {
    table: &'a [u8],
}

impl<'a> Model for GroupClauses<'a> {
    ghost Value = { List ℕ };

    ghost view = { λ k. k.table.now };

    ghost invariant = { λ k. Checked k.table.now };
}

impl<'a> GroupClauses<'a> {
    // Inner: the clauses of such a table.
    pub fn of(table: &'a [u8]) -> GroupClauses<'a>
        requires { Checked table.now }
        ensures { result ≡ table.now }
    {
        GroupClauses { table }
    }

    // Inner: how many conditions clause i has.
    pub fn length(&self, i: usize) -> usize
        requires { i < record_count clauses self.now }
        ensures { (result ≡ clause_length self.now i) × (result ≤ 4) }
    {
        conditions::count(self.table, i)
    }

    // Inner: its condition j.
    pub fn condition(&self, i: usize, j: usize) -> GroupCondition
        requires { (i < record_count clauses self.now) × (j < clause_length self.now i) }
        ensures at { (result.attribute ≡ condition_attribute self.now i j)
            × (result.operator ≡ condition_operator self.now i j)
            × (result.value ≡ condition_value self.now i j) }
        ensures kept { (result.attribute ≤ 3) × (result.attribute < 3 → result.operator ≤ 5)
            × (result.attribute ≡ 3 → result.operator ≡ 6) }
    {
        GroupCondition::read(self.table, i, j)
    }
}

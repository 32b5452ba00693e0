// What a permission's clauses ask of the number of entries, the number of roles and each role. Bit i is for clause i.
ghost use Rattle.std.specs.Prelude.{◌≤◌, length};
ghost use Rattle.masks.specs.Asked.{Room};

use crate::clauses::{all_but, some_clause, strike_roles, strike_unmet};
use crate::table::GroupClauses;
use reader::clauses::GroupCondition;

// Inner: for each number of entries and each number of roles the clauses that it meets, and for each role those that
// don't ask for it.
#[derive(Clone, Copy)]
pub struct Asked {
    pub entries: [u64; 7],
    pub numbers: [u64; 9],
    pub roles: [u64; 8],
    ghost room: { Room entries numbers roles },
}

// What is asked and the caller's masks of the sums, while clauses are struck out of both.
#[derive(Drop)]
pub(crate) struct Striking<'a> {
    pub asked: Asked,
    pub sums: &'a mut [u64],
    ghost few: { length sums.now ≤ 256 },
}

impl Striking<'_> {
    ghost use Rattle.std.specs.Prelude.{◌^◌, ◌<◌, length};
    ghost use Rattle.reader.specs.Tables.{clauses, record_count};
    ghost use Rattle.reader.specs.Fields.{clause_length};
    ghost use Rattle.masks.specs.Clauses.{met_at, met, NarrowedAll};
    ghost use Rattle.masks.specs.Striking.{StruckOut, AllStruck};

    // Leaves only `others` in the masks of what condition j of clause i is on, where it isn't met.
    fn strike_condition(&mut self, k: &GroupClauses<'_>, i: usize, j: usize, others: u64)
        requires { (i < record_count clauses k.now) × (j < clause_length k.now i) }
        ensures { StruckOut (met_at k.now i j) others self.old self.new }
    {
        let GroupCondition {
            attribute,
            operator,
            value,
        } = k.condition(i, j);
        let asked = &mut self.asked;
        // by the attribute's number, 0 to 3: a match of four arms would make an enum of it, for these four to match
        match attribute {
            0 => strike_unmet(&mut asked.entries, operator, value, others),
            1 => strike_unmet(&mut self.sums[..], operator, value, others),
            2 => strike_unmet(&mut asked.numbers, operator, value, others),
            _ => strike_roles(&mut asked.roles, value, others),
        }
    }

    // The same for all conditions of clause i.
    fn strike_clause(&mut self, k: &GroupClauses<'_>, i: usize, others: u64)
        requires { i < record_count clauses k.now }
        ensures { StruckOut (met k.now i) others self.old self.new }
    {
        // by number: the conditions stand in the record, not in a slice of their own
        for j in 0..k.length(i) {
            self.strike_condition(k, i, j, others);
        }
    }

    // Strikes each clause of the set out of the masks of what it isn't met by.
    pub(crate) fn strike_clauses(&mut self, k: &GroupClauses<'_>, own: u64)
        requires { (own < 2 ^ record_count clauses k.now)
            × NarrowedAll k.now own own (length self.old.sums.now) self.old.asked self.old.sums.now }
        ensures { AllStruck k.now own self.old self.new }
    {
        // Bit by bit, as the conflict list is written: a filter over the 64 numbers needs a test of its own and is no
        // plainer.
        let mut rest = own;
        while rest != 0 {
            let i = some_clause(rest);
            self.strike_clause(k, i, all_but(own, i));
            rest = all_but(rest, i);
        }
    }
}

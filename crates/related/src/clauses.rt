// Related context numbers: some one context satisfies both, found at the first pair of clauses that can hold together.
ghost use Rattle.std.specs.Prelude.{◌≡◌, false, ◌+◌, ◌*◌, ◌≤◌, ◌<◌, length, List, ℕ};
ghost use Rattle.reader.specs.Tables.{contexts, record_count};
ghost use Rattle.reader.specs.Fields.{context_length};
ghost use Rattle.reader.specs.Rules.{contexts_bad};
ghost use Rattle.related.specs.Related.{clause_of, fits, both_fit, value_fits, some_value_fits};
ghost use Rattle.related.specs.Related.{meetable, compatible, joins, related};

use reader::RANGES;
use reader::conditions::{self, Condition};
use reader::contexts::ContextCondition;
use std::marker::Model;

// A table C of whole records that passed the check, seen as its bytes.
#[derive(Drop)]
pub struct ContextClauses<'a> {
    table: &'a [u8],
}

impl<'a> Model for ContextClauses<'a> {
    ghost Value = { List ℕ };

    ghost view = { λ c. c.table.now };

    ghost invariant = { λ c. (contexts_bad c.table.now ≡ false)
        × (length c.table.now ≡ 16 * record_count contexts c.table.now) };
}

// Clauses i and j where they speak of parameter p.
#[derive(Clone, Copy)]
struct Meeting {
    i: usize,
    j: usize,
    p: u8,
    ghost parameter: { p < 3 },
}

impl<'a> ContextClauses<'a> {
    // Inner: the clauses of such a table.
    pub fn of(table: &'a [u8]) -> ContextClauses<'a>
        requires { (contexts_bad table.now ≡ false) × (length table.now ≡ 16 * record_count contexts table.now) }
        ensures { result ≡ table.now }
    {
        ContextClauses { table }
    }

    // Clause i is one of the context number; 255 counts as one clause without conditions, behind the others, as the
    // definition has it.
    fn clause_of(&self, number: u8, i: usize) -> bool
        ensures { result ≡ clause_of self.now number i }
    {
        if i < self.table.len() / 16 {
            self.table[16 * i] == number
        } else {
            number == 255
        }
    }

    // The number of conditions of clause i; none behind the table.
    fn length_of(&self, i: usize) -> usize
        ensures { result ≡ context_length self.now i }
    {
        if i < self.table.len() / 16 {
            conditions::count(self.table, i)
        } else {
            0
        }
    }

    // Value v of parameter p meets the conditions of clause i on that parameter; there are none behind the table.
    fn fits_all(&self, i: usize, p: u8, v: u32) -> bool
        ensures { result ≡ fits self.now i p v }
    {
        self.table.len() / 16 <= i
            || conditions::all_pass(self.table, i, |condition: ContextCondition| {
                condition.parameter != p
                    || weights::operators::is_met(condition.operator, v, u32::from(condition.value))
            })
    }

    // Value v meets the conditions of both clauses.
    fn both_fit(&self, meeting: Meeting, v: u32) -> bool
        ensures { result ≡ both_fit self.now meeting.i meeting.j meeting.p v }
    {
        let Meeting { i, j, p, .. } = meeting;
        v < RANGES[p as usize] as u32 && self.fits_all(i, p, v) && self.fits_all(j, p, v)
    }

    // Condition k of clause s is on the parameter, and its value, or one more, meets the conditions of both clauses.
    fn value_fits(&self, meeting: Meeting, s: usize, k: usize) -> bool
        requires { k < context_length self.now s }
        ensures { result ≡ value_fits self.now s meeting.i meeting.j meeting.p k }
    {
        let condition = ContextCondition::read(self.table, s, k);
        let value = u32::from(condition.value);
        condition.parameter == meeting.p
            && (self.both_fit(meeting, value) || self.both_fit(meeting, value + 1))
    }

    // Some condition's value of clause s, or one more, does.
    fn some_value_fits(&self, meeting: Meeting, s: usize) -> bool
        ensures { result ≡ some_value_fits self.now s meeting.i meeting.j meeting.p }
    {
        (0..self.length_of(s)).any(|k| self.value_fits(meeting, s, k))
    }

    // Some value does: 0, or a condition's value, or one more.
    fn can_meet(&self, meeting: Meeting) -> bool
        ensures { result ≡ meetable self.now meeting.i meeting.j meeting.p }
    {
        self.both_fit(meeting, 0)
            || self.some_value_fits(meeting, meeting.i)
            || self.some_value_fits(meeting, meeting.j)
    }

    // Clauses i and j can hold together.
    fn are_compatible(&self, i: usize, j: usize) -> bool
        ensures { result ≡ compatible self.now i j }
    {
        (0..3u8).all(
            |p|
                requires { p < 3 }
            { self.can_meet(Meeting { i, j, p }) },
        )
    }

    // Clause j of the context number can hold together with clause i.
    fn joins_clause(&self, number: u8, i: usize, j: usize) -> bool
        ensures { result ≡ joins self.now number i j }
    {
        self.clause_of(number, j) && self.are_compatible(i, j)
    }

    // Inner: the context numbers x and y are related. Document 01 asks for nested loops that a label leaves.
    pub fn are_related(&self, x: u8, y: u8) -> bool
        ensures { result ≡ related self.now x y }
    {
        let end = self.table.len() / 16 + 1;
        let mut found = false;
        'pairs: for i in 0..end {
            if self.clause_of(x, i) {
                for j in 0..end {
                    if self.joins_clause(y, i, j) {
                        found = true;
                        break 'pairs;
                    }
                }
            }
        }
        found
    }
}

// The fewest entries that meet a condition, told by masks of clauses.
#![tactic(auto)]

ghost use Rattle.std.specs.Prelude.{◌≡◌, List, ℕ, suc, ◌+◌, ◌*◌, ◌≤◌, ◌<◌, length};
ghost use Rattle.std.specs.Int.Bits.{bit_or};
ghost use Rattle.multisets.specs.Ranks.{first};
ghost use Rattle.multisets.specs.Ends.{NextEnds};
ghost use Rattle.multisets.specs.Levels.{Summed, SumsFit};
ghost use Rattle.seek.specs.Search.{met_by, by_masks, SomeMet, FoundAt, Ready, TriedWith};
ghost use Rattle.seek.specs.Level.{met_with, met_together, Roomy, meets, Looking};
ghost use Rattle.seek.specs.Answer.{AnsweredWith};

mod condition;
pub mod leading;
pub mod led;

use condition::Condition;
use multisets::levels::LevelTables;
use multisets::ranks::{first_in, start_in};
use multisets::{Weighing, back};

// Inner: the clauses that each sum of weights and each set of roles meets, as bits.
#[derive(Drop)]
pub struct Masks {
    pub sums: [u64; 256],
    pub sets: [u64; 256],
}

// A level's places, with their ends, sums and sets of roles; and for what they are looked through. `Roomy` says how
// many places there are: each method asks for those that it reads.
#[derive(Drop)]
struct Level<'a, const LED: usize> {
    ends: &'a [u8],
    sums: &'a [u8],
    roles: &'a [u8],
    condition: Condition<'a, LED>,
}

impl<const LED: usize> Level<'_, LED> {
    // Some clause of the row is met by the sum and by the set of place x, and it is reached: its end isn't 255, as the
    // tables keep it.
    fn met_at(&self, x: usize) -> bool
        requires { Roomy x (suc x) self.now }
        ensures { result ≡ meets self.now x }
    {
        let condition = &self.condition;
        condition.row & condition.of_sum(self.sums[x]) & condition.of_set(self.roles[x]) != 0
            && self.ends[x] != 255
    }

    // Such a place from `from` to before `end`.
    fn meeting_in(&self, from: usize, end: usize) -> Option<usize>
        requires { Roomy from end self.now × (from ≤ end) × (end ≤ 3003) }
        ensures { FoundAt (meets self.now) from end result }
    {
        (from..end).find(
            |x|
                requires { Roomy x.now (suc x.now) self.now }
                ensures { (result ≡ meets self.entry.now x.entry.now) × (self.exit ≡ self.entry) }
            { self.met_at(*x) },
        )
    }

    // The clauses that the sum and the set of one of eight places from x on meet.
    fn some_met(&self, x: usize) -> u64
        requires { Roomy x (x + 8) self.now × (x ≤ 3003) }
        ensures { SomeMet self.now.condition.front self.now.sums.now self.now.roles.now self.now.condition.above.now
            self.now.condition.masks.now.sets x 8 result }
    {
        let condition = &self.condition;
        self.sums[x..x + 8].iter().zip(&self.roles[x..x + 8]).fold(
            0,
            |all, (sum, set)|
                requires { sum.now < length condition.now.above.now }
                ensures { (result ≡ bit_or all (met_together condition.entry.now sum.entry.now set.entry.now))
                    × (condition.exit ≡ condition.entry) }
            { all | (condition.of_sum(*sum) & condition.of_set(*set)) },
        )
    }

    // The same for the eight places from x on, which are looked at one by one only where some clause of the row is met.
    fn meeting_in_eight(&self, x: usize) -> Option<usize>
        requires { Roomy x (x + 8) self.now × (x + 8 ≤ 3003) }
        ensures { FoundAt (meets self.now) x (x + 8) result }
    {
        if self.condition.row & self.some_met(x) == 0 {
            return None;
        }
        self.meeting_in(x, x + 8)
    }

    // The same from `from` to before `end`, eight places at a time and then the rest.
    fn meeting(&self, from: usize, end: usize) -> Option<usize>
        requires { Roomy from end self.now × (from ≤ end) × (end ≤ 3003) }
        ensures { FoundAt (meets self.now) from end result }
    {
        let eights = (end - from) / 8;
        // By number: with `step_by(8)`, tried, dear reports take up to 1.19 times the twin's instructions, and miss the
        // bar of 1.15.
        let found = (0..eights).find_map(
            |i|
                requires { Roomy (from + 8 * i) (from + 8 * i + 8) self.now × (from + 8 * i + 8 ≤ 3003) }
                ensures { FoundAt (meets self.entry.now) (from + 8 * i) (from + 8 * i + 8) result
                    × (self.exit ≡ self.entry) }
            { self.meeting_in_eight(from + 8 * i) },
        );
        if found.is_some() {
            return found;
        }
        self.meeting_in(from + 8 * eights, end)
    }
}

// A place of the multisets of n roles below the end, of a level that is made, that meets the condition.
fn look_through<const ROWS: usize, const PLACES: usize, const LED: usize>(
    tables: &LevelTables<ROWS, PLACES>,
    condition: Condition<'_, LED>,
    n: usize,
    weighing: Weighing,
) -> Option<usize>
    requires { Looking tables.now.users n weighing tables.now.known tables.now.sums condition.front condition.above.now
        condition.masks.now.sets }
    ensures { (sets : List ℕ) → NextEnds sets tables.now.users.nexts →
        TriedWith sets weighing.w weighing.placed tables.now.users.d (met_with condition.entry) n result
        tables.now.reached.ends tables.now.reached.from }
{
    let first = first_in(tables.users.d, n);
    let last = first + start_in(n, weighing.end);
    let level = Level {
        ends: &tables.reached.ends,
        sums: &tables.sums,
        roles: &tables.roles,
        condition,
    };
    level.meeting(first, last)
}

// The same where nobody is in front; the sums are made, and the level if it isn't yet.
fn try_level<const ROWS: usize, const PLACES: usize>(
    tables: &mut LevelTables<ROWS, PLACES>,
    masks: &Masks,
    row: u64,
    n: usize,
    weighing: Weighing,
) -> Option<usize>
    requires { (n ≤ 6) × SumsFit weighing n
        × Ready tables.old.users.d weighing.end weighing.w tables.old.users.nexts masks.now.sums masks.now.sets
        × Summed tables.old.users.d weighing tables.old.sums (first tables.old.users.d n) }
    ensures { (tables.new.users ≡ tables.old.users)
        × Summed tables.old.users.d weighing tables.new.sums (first tables.old.users.d (suc n))
        × ((sets : List ℕ) → NextEnds sets tables.old.users.nexts →
        TriedWith sets weighing.w weighing.placed tables.old.users.d (met_by row masks.now.sums masks.now.sets) n result
        tables.new.reached.ends tables.new.reached.from) }
{
    tables.sum_level(n, weighing);
    if row == 0 {
        return None;
    }
    tables.reach(n);
    let condition = Condition {
        row,
        masks,
        above: &masks.sums,
        front: 0,
    };
    look_through::<ROWS, PLACES, 0>(tables, condition, n, weighing)
}

// A number of entries, and their twelve bytes as the report writes them: an array of fixed length, for nothing is
// allocated.
#[derive(Clone, Copy)]
pub struct Found {
    pub n: usize,
    pub group: [u8; 12],
}

// Inner: the fewest entries, at most `last`, that with those placed before meet the condition told by the masks; among
// the tables' roles.
pub fn search<const ROWS: usize, const PLACES: usize>(
    tables: &mut LevelTables<ROWS, PLACES>,
    masks: &Masks,
    rows: &[u64; 7],
    last: usize,
    weighing: Weighing,
) -> Option<Found>
    requires { (last ≤ 6) × SumsFit weighing last
        × Ready tables.old.users.d weighing.end weighing.w tables.old.users.nexts masks.now.sums masks.now.sets }
    ensures { (tables.new.users ≡ tables.old.users)
        × ((sets : List ℕ) → NextEnds sets tables.old.users.nexts →
        AnsweredWith sets weighing.w weighing.placed (by_masks rows.now masks.now.sums masks.now.sets) last result) }
{
    // No `find_map`: each turn changes the tables.
    for (n, row) in rows[..=last].iter().enumerate() {
        if let Some(at) = try_level(tables, masks, *row, n, weighing) {
            let group = back::group(&tables.reached.ends, &tables.reached.from, n, at);
            return Some(Found { n, group });
        }
    }
    None
}

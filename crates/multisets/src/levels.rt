// The tables of a search, level by level.
ghost use Rattle.std.specs.Prelude.{◌≡◌, ℕ, suc, ◌+◌, ◌*◌, ◌<◌, ◌≤◌, ◌++◌, length, replicate, drop, set};
ghost use Rattle.multisets.specs.Ranks.{first};
ghost use Rattle.multisets.specs.Levels.{Summed, SumsFit};
ghost use Rattle.multisets.specs.Laid.{Laid, Laid-prop};

use crate::ends::{Nexts, Users};
use crate::growth::Reached;
use crate::ranks::first_in;
use crate::{Weighing, growth, values};

// Inner: what is known of the multisets of at most six roles below d. Up to the level of `shaped` roles there are rows
// and sets of roles, which depend on no user; up to that of `known` roles ends, for users by their next ends. The sums
// are those of the search under way. With room for ROWS numbers of rows, and for PLACES multisets. Arrays side by side,
// none of structs: the search reads eight places of one at a time, and `write_block` makes sums and sets each in an
// array of its own (in one of structs it would be told which field). Nothing is allocated.
#[derive(Drop)]
pub struct LevelTables<const ROWS: usize, const PLACES: usize> {
    pub users: Users,
    pub known: usize,
    pub shaped: usize,
    pub rows: [u16; ROWS],
    pub reached: Reached<PLACES>,
    pub roles: [u8; PLACES],
    pub sums: [u8; PLACES],
    pub ghost laid: { Laid users.d known shaped users.nexts rows reached.ends reached.from roles
        sums } by { Laid-prop },
}

// Of the places before `past` the first alone is reached, at 0.
fn clear(ends: &mut [u8], past: usize)
    requires { (past ≤ length ends.old) × (0 < length ends.old) }
    ensures { ends.new ≡ set (replicate past 255 ++ drop past ends.old) 0 0 }
{
    ends[..past].fill(255);
    ends[0] = 0;
}

impl<const ROWS: usize, const PLACES: usize> LevelTables<ROWS, PLACES> {
    // Inner: tables that know the level of no role.
    pub fn new(d: usize, nexts: Nexts) -> Self
        requires { (d ≤ 8) × (8 * first d 5 ≤ ROWS) × (first d 7 ≤ PLACES) }
        ensures { (result.users.d ≡ d) × (result.users.nexts ≡ nexts) }
    {
        // Read for what is known of them.
        let _ = &nexts.ends;
        let mut ends = [255u8; PLACES];
        ends[0] = 0;
        LevelTables {
            users: Users { d, nexts },
            known: 0,
            shaped: 0,
            rows: [0; ROWS],
            reached: Reached {
                ends,
                from: [0; PLACES],
            },
            roles: [0; PLACES],
            sums: [0; PLACES],
        }
    }

    // Inner: the same tables for other users: rows and sets stay, and the ends of no role are known. Those that weren't
    // known are 255 as they are.
    pub fn renew(&mut self, nexts: Nexts)
        ensures { (self.new.users.d ≡ self.old.users.d) × (self.new.users.nexts ≡ nexts) }
    {
        // Read for what is known of them.
        let _ = &nexts.ends;
        let past = first_in(self.users.d, self.known + 1);
        clear(&mut self.reached.ends, past);
        self.users.nexts = nexts;
        self.known = 0;
    }

    // The rows and the sets of the next level, where they aren't there.
    fn shape(&mut self)
        requires { self.old.known ≤ 5 }
        ensures { (self.new.known < self.new.shaped) × (self.new.known ≡ self.old.known)
            × (self.new.users ≡ self.old.users) × (self.new.sums ≡ self.old.sums) }
    {
        if self.known < self.shaped {
            return;
        }
        growth::add_rows(&mut self.rows, self.users.d, self.shaped);
        values::join_level(self.users.d, self.shaped, &mut self.roles);
        self.shaped += 1;
    }

    // The level of a role more.
    fn extend(&mut self)
        requires { self.old.known ≤ 5 }
        ensures { (self.new.known ≡ suc self.old.known) × (self.new.users ≡ self.old.users)
            × (self.new.sums ≡ self.old.sums) }
    {
        self.shape();
        self.reached.grow(&self.users, &self.rows, self.known);
        self.known += 1;
    }

    // Inner: the levels up to n, of which those that are known stay. Taken in at each search: a call takes 25
    // instructions a level.
    #[inline(always)]
    pub fn reach(&mut self, n: usize)
        requires { n ≤ 6 }
        ensures { (n ≤ self.new.known) × (self.new.users ≡ self.old.users)
            × (self.new.sums ≡ self.old.sums) }
    {
        while self.known < n {
            self.extend();
        }
    }

    // Inner: the sums of the multisets of n roles below the end, with what is placed before, where those of fewer are
    // made.
    pub fn sum_level(&mut self, n: usize, weighing: Weighing)
        requires { (n ≤ 6) × (weighing.end ≤ self.old.users.d) × SumsFit weighing n
            × Summed self.old.users.d weighing self.old.sums (first self.old.users.d n) }
        ensures { Summed self.old.users.d weighing self.new.sums (first self.old.users.d (suc n))
            × (self.new.users ≡ self.old.users) }
    {
        values::sum_level(self.users.d, n, weighing, &mut self.sums);
    }
}

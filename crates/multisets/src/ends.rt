// The least ends of groups, by the multiset of their roles. Where there is none an end is 255, the largest number of a
// byte: of two ends the smaller is kept, whether or not there is one.
ghost use Rattle.std.specs.Prelude.{◌≡◌, ℕ, ◌+◌, ◌*◌, ◌≤◌, ◌<◌, List, length, get_or, take, drop};
ghost use Rattle.multisets.specs.Ends.{NextEnd, NextEnds, NextTable};

use std::marker::Model;

// Inner: at 8 * place + role the end after the next user from there on who may act in the role, at most 24, or 255;
// seen as its bytes, flat as the definitions read them. Whose users they are `NextEnds` says.
#[derive(Clone, Copy)]
pub struct Nexts {
    pub(crate) ends: [u8; 200],
}

impl Model for Nexts {
    ghost Value = { List ℕ };

    ghost view = { λ nexts. nexts.ends };

    ghost invariant = { λ nexts. NextTable nexts.ends };

    ghost inverse = { λ ends. record { ends = ends } };
}

// Inner: whom the tables are for: users by their next ends, and d, how many roles there are.
#[derive(Clone, Copy)]
pub struct Users {
    pub d: usize,
    pub nexts: Nexts,
    pub ghost most: { d ≤ 8 },
}

impl Nexts {
    // Those of a place, one for each role below d.
    pub(crate) fn behind(&self, end: usize, d: usize) -> &[u8]
        requires { (end ≤ 24) × (d ≤ 8) }
        ensures row { result.now ≡ take d (drop (8 * end) self.now) }
        ensures table { NextTable self.now }
    {
        let at = 8 * end;
        &self.ends[at..at + d]
    }
}

// The end after the next user from `from` on who may act in the role, or 255; `later` is that from the user after.
fn end_from(sets: &[u8; 24], later: u8, from: usize, role: u8) -> u8
    requires { (from < 24) × (role < 8) }
    ensures { NextEnd sets.now (from + 1) role later → NextEnd sets.now from role result }
{
    if (sets[from] >> role) % 2 == 1 {
        (from + 1) as u8
    } else {
        later
    }
}

// Inner: these ends, by each user's set of roles; users from `users` on may act in no role. All sets and a number, no
// slice of those there are: `NextEnds` and the report speak of 24 sets, and of a slice's ends it would have to be shown
// that they are those of the 24.
pub fn next_ends(sets: &[u8; 24], users: usize) -> Nexts
    requires { (users ≤ 24) × ((u : ℕ) → users ≤ u → get_or sets.now u 0 ≡ 0) }
    ensures { NextEnds sets.now result }
{
    let mut ends = [255u8; 200];
    // Each end may be the one eight places on, written before it: a `zip` can't read the array that it writes.
    for at in (0..8 * users).rev() {
        ends[at] = end_from(sets, ends[at + 8], at / 8, (at % 8) as u8);
    }
    Nexts { ends }
}

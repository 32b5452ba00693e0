// One role more: from the multisets of n roles to those of n + 1.
ghost use Rattle.std.specs.Prelude.{◌≡◌, ℕ, suc, ◌+◌, ◌*◌, ◌≤◌, ◌<◌, length, get_or};
ghost use Rattle.multisets.specs.Ranks.{starts, first};
ghost use Rattle.multisets.specs.Values.{Written};
ghost use Rattle.multisets.specs.Ends.{Filled, Relaxed};
ghost use Rattle.multisets.specs.Levels.{Fixed, Kept, Rows, LedOn, Pushing};

use crate::ends::Users;
use crate::ranks::{first_in, start_in};
use std::array;

// How far multisets of n + 1 roles whose largest is r lie behind with each role more, as far as r and the role tell.
fn fixed_steps(n: usize, r: usize) -> [u16; 8]
    requires { (n ≤ 4) × (r < 8) }
    ensures { Fixed n r result }
{
    let low = start_in(n + 2, r) - start_in(n + 1, r);
    array::from_fn(|q| (if q < r { low } else { start_in(n + 2, q) }) as u16)
}

// 1 for a role below r, to which the rest without r adds, else 0. Kept out of line: taken in, the compiler makes a
// branch of each number.
#[inline(never)]
fn kept_steps(r: usize) -> [u16; 8]
    ensures { Kept r result }
{
    array::from_fn(|q| u16::from(q < r))
}

// The eight numbers of a multiset from those at a place, of the multiset without its largest role.
fn ups_of(t: &[u16], at: usize, fixed: &[u16; 8], kept: &[u16; 8]) -> [u16; 8]
    requires { (at + 8 ≤ length t.now) × (at ≤ 100000)
        × ((q : ℕ) → q < 8 → get_or fixed.now q 0 + get_or t.now (at + q) 0 * get_or kept.now q 0 ≤ 6006) }
    ensures { (length result ≡ 8) × ((q : ℕ) → q < 8 →
        get_or result q 0 ≡ get_or fixed.now q 0 + get_or t.now (at + q) 0 * get_or kept.now q 0) }
{
    array::from_fn(|q| fixed[q] + t[at + q] * kept[q])
}

// Writes the eight numbers of a multiset.
fn keep_row(t: &mut [u16], at: usize, up: &[u16; 8])
    requires { (at + 8 ≤ length t.old) × (at ≤ 100000) }
    ensures { Written (λ q. get_or up.now q 0) at 8 t.old t.new }
{
    t[at..at + 8].copy_from_slice(up);
}

// The rows of the multisets of n + 1 roles whose largest is r, from those of n roles. Kept out of line: taken in, the
// compiler makes them number by number.
#[inline(never)]
fn add_block(t: &mut [u16], d: usize, n: usize, r: usize)
    requires { (n ≤ 3) × (d ≤ 8) × (r < d) × Rows d (first d (suc n) + starts (suc n) r) t.old }
    ensures { Rows d (first d (suc n) + starts (suc n) (suc r)) t.new }
{
    let less = first_in(d, n);
    let here = first_in(d, n + 1) + start_in(n + 1, r);
    let fixed = fixed_steps(n, r);
    let kept = kept_steps(r);
    // A multiset is a number here, and its row goes into the table that the next ones read.
    for j in 0..start_in(n, r + 1) {
        let up = ups_of(t, 8 * (less + j), &fixed, &kept);
        keep_row(t, 8 * (here + j), &up);
    }
}

// Inner: the rows of the multisets of n roles, from those of one fewer; of five roles none are kept.
pub fn add_rows(t: &mut [u16], d: usize, n: usize)
    requires { (n ≤ 5) × (d ≤ 8) × Rows d (first d n) t.old }
    ensures { Rows d (first d (suc n)) t.new }
{
    if n == 0 {
        keep_row(t, 0, &[0, 1, 2, 3, 4, 5, 6, 7]);
        return;
    }
    if n == 5 {
        return;
    }
    // A role is a number here, and each block changes the table.
    for r in 0..d {
        add_block(t, d, n - 1, r);
    }
}

// Keeps the smaller end at a place, and by which entry k it came.
fn relax(ends: &mut [u8], from: &mut [u16], at: usize, end: u8, k: u16)
    requires { (at < length ends.old) × (at < length from.old) }
    ensures { Relaxed ends.old from.old at end k ends.new from.new }
{
    if end < ends[at] {
        ends[at] = end;
        from[at] = k;
    }
}

// Inner: the multisets reached so far, at their places: their least ends, and by which entry each end came. An entry is
// one number, 8 * i + q for place i and role q, as it lies in rows of eight numbers a multiset. Their own struct: while
// a level is made, the invariant of `LevelTables` doesn't hold.
#[derive(Drop)]
pub struct Reached<const PLACES: usize> {
    pub ends: [u8; PLACES],
    pub from: [u16; PLACES],
}

impl<const PLACES: usize> Reached<PLACES> {
    // What the multiset at place i leads to with each role more; `next` is its rank's place in the next level. Kept out
    // of line: taken into the loops, it is short of registers.
    #[inline(never)]
    fn push(&mut self, users: &Users, up: &[u16], i: usize, next: usize)
        requires { Pushing users.now.d users.now.nexts up.now i next self.old.ends self.old.from }
        ensures { Filled users.now.d users.now.nexts (8 * i + 8) self.new.ends self.new.from }
    {
        let end = self.ends[i];
        // no end, as `ends` has it
        if end == 255 {
            return;
        }
        let row = users.nexts.behind(end as usize, users.d);
        for (q, (later, ahead)) in row.iter().zip(up).enumerate() {
            relax(
                &mut self.ends,
                &mut self.from,
                next + (*ahead as usize),
                *later,
                (8 * i + q) as u16,
            );
        }
    }

    // From the multisets of n roles, by their rows.
    fn by_rows(&mut self, users: &Users, t: &[u16], n: usize)
        requires { (n ≤ 4) × Rows users.now.d (first users.now.d (suc n)) t.now
            × LedOn users.now (first users.now.d n) self.old }
        ensures { LedOn users.now (first users.now.d (suc n)) self.new }
    {
        let here = first_in(users.d, n);
        let count = start_in(n, users.d);
        // A multiset is a number here, and each changes the tables.
        for m in 0..count {
            let at = 8 * (here + m);
            self.push(users, &t[at..at + 8], here + m, here + count + m);
        }
    }

    // From the multisets of five roles whose largest is r: their rows are made and not kept. Out of line, as
    // `add_block` is.
    #[inline(never)]
    fn block(&mut self, users: &Users, t: &[u16], r: usize)
        requires { (r < users.now.d) × Rows users.now.d (first users.now.d 6) t.now
            × LedOn users.now (first users.now.d 5 + starts 5 r) self.old }
        ensures { LedOn users.now (first users.now.d 5 + starts 5 (suc r)) self.new }
    {
        let less = first_in(users.d, 4);
        let here = first_in(users.d, 5) + start_in(5, r);
        let next = first_in(users.d, 6) + start_in(5, r);
        let fixed = fixed_steps(4, r);
        let kept = kept_steps(r);
        for j in 0..start_in(4, r + 1) {
            let up = ups_of(t, 8 * (less + j), &fixed, &kept);
            self.push(users, &up, here + j, next + j);
        }
    }

    // From the multisets of five roles.
    fn by_blocks(&mut self, users: &Users, t: &[u16])
        requires { Rows users.now.d (first users.now.d 6) t.now
            × LedOn users.now (first users.now.d 5) self.old }
        ensures { LedOn users.now (first users.now.d 6) self.new }
    {
        for r in 0..users.d {
            self.block(users, t, r);
        }
    }

    // Inner: the least ends of the multisets of n + 1 roles, from those of n and their rows.
    pub fn grow(&mut self, users: &Users, t: &[u16], n: usize)
        requires { (n ≤ 5) × Rows users.now.d (first users.now.d (suc n)) t.now
            × LedOn users.now (first users.now.d n) self.old }
        ensures { LedOn users.now (first users.now.d (suc n)) self.new }
    {
        if n == 5 {
            self.by_blocks(users, t);
            return;
        }
        self.by_rows(users, t, n);
    }
}

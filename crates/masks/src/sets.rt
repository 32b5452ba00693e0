// The masks of the sets of roles: for each set of roles below `end` the clauses that it meets together with the roles
// of `start`; none where one of its roles has no weight.
// Bounds of a few words (`end ≤ 8`) stay clauses. What is asked of the counts differs, so no type says it: those of the
// sets below `end`, or those of such sets with `start`.
ghost use Rattle.std.specs.Prelude.{◌≡◌, List, ℕ, ◌+◌, ◌^◌, ◌≤◌, ◌<◌, length, get_or};
ghost use Rattle.std.specs.Int.Bits.{bit_or};
ghost use Rattle.decision.specs.Conditions.{role_num};
ghost use Rattle.masks.specs.Sets.{RoleCounts, Without, WithinReach, Doubled, SetsMarked, NumbersFit, SetsFor};

use crate::asked::Asked;
use decision::conditions;
use reader::bytes;
use std::array;

// Inner: the number of different roles of each set below `end`.
pub fn role_counts(counts: &mut [u8; 256], end: usize)
    requires { end ≤ 256 }
    ensures { RoleCounts end counts.new }
{
    // No `array::from_fn`: it would make all 256, and test each number against `end`.
    for (v, count) in counts[..end].iter_mut().enumerate() {
        *count = conditions::role_num(v as u8) as u8;
    }
}

// Of the clauses `own`, for each role those that a set without it can meet: all if it is in `start`.
fn without_role(own: u64, roles: &[u64; 8], start: u8) -> [u64; 8]
    ensures { Without own roles.now start result }
{
    array::from_fn(|r| if weights::sets::in_set(start as u32, r as u8) {
        own
    } else {
        roles[r]
    })
}

// Those that a set of roles below `end` can meet.
fn within_reach(own: u64, without: &[u64; 8], end: u8) -> u64
    requires { end ≤ 8 }
    ensures { (roles : List ℕ) (start : ℕ) → Without own roles start without.now →
        WithinReach own roles start end 8 result }
{
    without[bytes::wide(end)..]
        .iter()
        .fold(own, |reached, mask| reached & *mask)
}

// From the masks of the sets below `half` to those of the sets below twice that: without the next role, and with it.
fn add_role(sets: &mut [u64], half: usize, without: u64, with: u64)
    requires { half + half ≤ length sets.old }
    ensures { Doubled half without with sets.old sets.new }
{
    let (low, rest) = sets.split_at_mut(half);
    let high = &mut rest[..half];
    // by place in `high`: of what `iter_mut().zip(..)` writes no proof would know
    for (v, mask) in low.iter_mut().enumerate() {
        high[v] = *mask & with;
        *mask &= without;
    }
}

// Inner: the number of sets of the roles below d.
pub fn sets_below(d: u8) -> usize
    requires { d ≤ 8 }
    ensures { (result ≡ 2 ^ d) × (result ≤ 256) }
{
    1usize << d
}

// The masks by the roles that the clauses ask for.
fn mark_sets(own: u64, without: &[u64; 8], w: [u8; 8], end: u8, sets: &mut [u64; 256])
    requires { end ≤ 8 }
    ensures { (roles : List ℕ) (start : ℕ) → Without own roles start without.now →
        SetsMarked own roles w start end sets.new }
{
    sets[0] = within_reach(own, without, end);
    // each role doubles the sets made so far
    for (r, weight) in w[..bytes::wide(end)].iter().enumerate() {
        let with = if *weight > 0 { own } else { 0 };
        add_role(sets, sets_below(r as u8), without[r], with);
    }
}

// Leaves in the masks of the sets from 0 on the clauses that the number of roles meets.
fn fit_numbers(sets: &mut [u64], numbers: &[u64; 9], counts: &[u8; 256], start: u8)
    requires { (length sets.old ≤ 256)
        × ((v : ℕ) → v < length sets.old → get_or counts.now (bit_or start v) 0 ≡ role_num (bit_or start v)) }
    ensures { NumbersFit (length sets.old) numbers.now start sets.old sets.new }
{
    for (v, mask) in sets.iter_mut().enumerate() {
        let count = counts[bytes::wide(start | v as u8)];
        *mask &= numbers[bytes::wide(count)];
    }
}

// Inner: the masks of the sets of roles below `end`.
pub fn sets_for(
    own: u64,
    asked: &Asked,
    w: [u8; 8],
    start: u8,
    end: u8,
    counts: &[u8; 256],
    sets: &mut [u64; 256],
)
    requires { (end ≤ 8) × ((v : ℕ) → v < 2 ^ end → get_or counts.now (bit_or start v) 0 ≡ role_num (bit_or start v)) }
    ensures { SetsFor own asked.now.numbers asked.now.roles w start end sets.new }
{
    mark_sets(own, &without_role(own, &asked.roles, start), w, end, sets);
    if asked.numbers.iter().any(|n| *n != own) {
        fit_numbers(&mut sets[..sets_below(end)], &asked.numbers, counts, start);
    }
}

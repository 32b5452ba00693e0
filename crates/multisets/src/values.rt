// The sums of roles' weights and the sets of roles, by multiset. Bounds of a few words (`n ≤ 5`, `d ≤ 8`) stay clauses,
// and `SumsFit`, for n differs from call to call.
ghost use Rattle.std.specs.Prelude.{◌≡◌, ℕ, suc, ◌+◌, ◌*◌, ◌^◌, ◌≤◌, ◌<◌, length, get_or};
ghost use Rattle.multisets.specs.Ranks.{first};
ghost use Rattle.multisets.specs.Values.{Held, set_at, Steps, Written};
ghost use Rattle.multisets.specs.Levels.{Summed, SumsFit};

use crate::Weighing;
use crate::ranks::{first_in, start_in};

// Writes from `to` on what `step` makes of the `count` numbers from `from` on. Of what `iter_mut().zip(..)` writes into
// a part no proof would know.
fn write_block<F: Fn(u8) -> u8>(t: &mut [u8], from: usize, to: usize, count: usize, step: F)
    requires { (from + count ≤ to) × (to + count ≤ length t.old) × (to + count ≤ 65535)
        × ((j : ℕ) → j < count → F.pre step (get_or t.old (from + j) 0)) }
    ensures { (g : ℕ → ℕ) → ((j y : ℕ) → j < count → F.post step (get_or t.old (from + j) 0) y → y ≡ g j) →
        Written g to count t.old t.new }
{
    let (before, rest) = t.split_at_mut(to);
    let values = &before[from..from + count];
    let block = &mut rest[..count];
    for (j, value) in block.iter_mut().enumerate() {
        *value = step(values[j]);
    }
}

// The values of the multisets of n + 1 roles below `end`, from those of n, of which `step` makes the values with one
// role more, the largest.
fn next_level<F: Fn(u8, usize) -> u8>(d: usize, end: usize, n: usize, t: &mut [u8], step: F)
    requires { (n ≤ 5) × (d ≤ 8) × (end ≤ d)
        × ((value : ℕ → ℕ → ℕ) × Held d end value t.old (first d (suc n))
        × Steps end n value (F.pre step) (F.post step)) }
    ensures { (value : ℕ → ℕ → ℕ) → Held d end value t.old (first d (suc n)) →
        Steps end n value (F.pre step) (F.post step) → Held d end value t.new (first d (suc (suc n))) }
{
    let before = first_in(d, n);
    let here = first_in(d, n + 1);
    // A role is a number here, and each block is written into the table that the blocks read.
    for r in 0..end {
        let to = here + start_in(n + 1, r);
        let largest = |value: u8| -> u8
            requires { F.pre step value r }
            ensures { F.post step value r result }
        { step(value, r) };
        write_block(t, before, to, start_in(n, r + 1), largest);
    }
}

// Inner: the sums of the multisets of n roles below the end, with what is placed before, where those of fewer are made.
// The sum of no role is what is placed before.
pub fn sum_level(d: usize, n: usize, weighing: Weighing, t: &mut [u8])
    requires { (n ≤ 6) × (d ≤ 8) × (weighing.end ≤ d) × SumsFit weighing n
        × Summed d weighing t.old (first d n) }
    ensures { Summed d weighing t.new (first d (suc n)) }
{
    if n == 0 {
        t[0] = weighing.placed;
        return;
    }
    next_level(d, weighing.end, n - 1, t, |sum, r| sum + weighing.w[r]);
}

// Inner: the sets of the multisets of n + 1 roles, from those of n.
pub fn join_level(d: usize, n: usize, t: &mut [u8])
    requires { (n ≤ 5) × (d ≤ 8) × Held d d set_at t.old (first d (suc n)) }
    ensures { Held d d set_at t.new (first d (suc (suc n))) }
{
    next_level(d, d, n, t, |set, r| set | (1u8 << r));
}

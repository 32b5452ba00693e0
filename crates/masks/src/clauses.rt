// A permission's clauses, struck out of the masks of what their conditions aren't met by. Bit i is for clause i.
ghost use Rattle.std.specs.Prelude.{◌≡◌, true, ◌^◌, ◌≤◌, ◌<◌, length, map};
ghost use Rattle.std.specs.Int.Bits.{bit_and};
ghost use Rattle.folds.specs.Sets.{in_set};
ghost use Rattle.reader.specs.Tables.{clauses, record_count};
ghost use Rattle.masks.specs.Clauses.{clauses_of, stands_to, lacks, Struck, AllBut, NarrowedAll};

use crate::asked::{Asked, Striking};
use crate::table::GroupClauses;
use weights::{operators, sets};

// Inner: the permission's clauses.
pub fn own_clauses(k: &[u8], permission: u8) -> u64
    requires { length k.now ≤ 1024 }
    ensures { (result ≡ clauses_of k.now permission) × (result < 2 ^ record_count clauses k.now) }
{
    (0..k.len() / 16).fold(
        0,
        |own, i| if k[16 * i] == permission {
            own | sets::wide_bit(i)
        } else {
            own
        },
    )
}

// Leaves only `others` in the masks.
fn strike(masks: &mut [u64], others: u64)
    ensures { masks.new ≡ map (λ mask. bit_and mask others) masks.old }
{
    for mask in masks.iter_mut() {
        *mask &= others;
    }
}

// Leaves only `others` in the masks, those of x = 0, 1 and so on, where x doesn't stand to the value as the operator
// says.
pub(crate) fn strike_unmet(masks: &mut [u64], operator: u8, value: u8, others: u64)
    requires { (length masks.old ≤ 256) × (operator ≤ 5) }
    ensures { Struck (length masks.old) (stands_to operator value) others masks.old masks.new }
{
    let range = operators::range_of(operator, value);
    let count = masks.len();
    strike(&mut masks[..range.low.min(count)], others);
    strike(&mut masks[range.end.min(count)..], others);
    if let Some(but) = range.but {
        if but < count {
            masks[but] &= others;
        }
    }
}

// Leaves only `others` in the masks of the roles that the value has.
pub(crate) fn strike_roles(masks: &mut [u64; 8], value: u8, others: u64)
    ensures { Struck 8 (lacks value) others masks.old masks.new }
{
    for (r, mask) in masks.iter_mut().enumerate() {
        if sets::in_set(value as u32, r as u8) {
            *mask &= others;
        }
    }
}

// A clause of the set, which has one.
pub(crate) fn some_clause(rest: u64) -> usize
    requires { 0 < rest }
    ensures { (result < 64) × (in_set rest result ≡ true) }
{
    rest.trailing_zeros() as usize
}

// The set without clause i.
pub(crate) fn all_but(own: u64, i: usize) -> u64
    requires { (i < 64) × (in_set own i ≡ true) }
    ensures { AllBut own i result }
{
    own - sets::wide_bit(i)
}

// Inner: these of the clauses `own`; for each sum those that it meets are written.
pub fn clauses_met(k: &GroupClauses<'_>, own: u64, sums: &mut [u64]) -> Asked
    requires { (own < 2 ^ record_count clauses k.now) × (length sums.old ≤ 256) }
    ensures { (length sums.new ≡ length sums.old)
        × NarrowedAll k.now own 0 (length sums.old) result sums.new }
{
    sums.fill(own);
    let asked = Asked {
        entries: [own; 7],
        numbers: [own; 9],
        roles: [own; 8],
    };
    let mut striking = Striking { asked, sums };
    striking.strike_clauses(k, own);
    striking.asked
}

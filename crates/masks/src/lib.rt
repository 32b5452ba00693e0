// The masks of a permission: for each number of entries, each sum of weights and each set of roles the clauses that it
// meets, as bits. A clause that is in all three masks is met.
#![tactic(auto)]

ghost use Rattle.masks.specs.Masks.{Ready, Masks};

pub mod asked;
pub mod clauses;
mod rows;
pub mod sets;
pub mod table;

use table::GroupClauses;

// The entries placed already: how many, the sum of their weights and the set of their roles.
#[derive(Clone, Copy)]
pub struct Placed {
    pub count: usize,
    pub sum: usize,
    pub roles: u8,
}

// What the roles weigh: the least and the largest weight, and one past the last role that has weight. All are 0 where
// none has weight, and no Option: what others add to entries placed before is then from 0 to 0.
#[derive(Clone, Copy)]
pub struct Weighed {
    pub light: usize,
    pub heavy: usize,
    pub end: u8,
}

// Inner: writes for each sum and each set of roles the clauses of `own` that it meets; for each number of entries more
// those that may be met with so many. `counts` are the sets' numbers of roles. k is the table's bytes: `Ready`, and
// `Seeking` above, say of them and of the counts what a search needs, at once.
pub fn masks_for(
    k: &[u8],
    own: u64,
    w: [u8; 8],
    weighed: Weighed,
    placed: Placed,
    counts: &[u8; 256],
    masks: &mut seek::Masks,
) -> [u64; 7]
    requires { Ready k.now own weighed placed counts.now }
    ensures { Masks k.now own w weighed placed masks.new.sums masks.new.sets result }
{
    let top = placed.sum + (6 - placed.count) * weighed.heavy;
    let asked = clauses::clauses_met(&GroupClauses::of(k), own, &mut masks.sums[..top + 1]);
    sets::sets_for(
        own,
        &asked,
        w,
        placed.roles,
        weighed.end,
        counts,
        &mut masks.sets,
    );
    let reached = rows::joined(&masks.sets[..sets::sets_below(weighed.end)]);
    rows::rows_for(&asked.entries, placed, weighed, reached, &masks.sums)
}

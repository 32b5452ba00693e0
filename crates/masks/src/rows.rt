// For each number of entries more the clauses that may be met with so many.
ghost use Rattle.std.specs.Prelude.{◌+◌, ◌-◌, ◌*◌, ◌≤◌, length};
ghost use Rattle.masks.specs.Rows.{Joined, RowFor, Rows};

use crate::{Placed, Weighed};

// Inner: the clauses that are in some mask.
pub fn joined(masks: &[u64]) -> u64
    ensures { Joined 0 (length masks.now) masks.now result }
{
    masks.iter().fold(0, |all, mask| all | *mask)
}

// Inner: the row of each number of entries more than are placed; 0 where there would be none or more than six. A row
// has the clauses that the number of entries meets, that are in `reached`, and that some sum meets that it can have.
pub fn rows_for(
    entries: &[u64; 7],
    placed: Placed,
    weighed: Weighed,
    reached: u64,
    sums: &[u64],
) -> [u64; 7]
    requires { (placed.count ≤ 6) × (weighed.light ≤ weighed.heavy)
        × (placed.sum + (6 - placed.count) * weighed.heavy + 1 ≤ length sums.now) }
    ensures { Rows entries.now placed.count placed.sum weighed.light weighed.heavy reached sums.now result }
{
    // behind the last number of entries no sums are to be joined, so `array::from_fn` would test each place
    let mut rows = [0; 7];
    for (n, row) in rows[..7 - placed.count].iter_mut().enumerate() {
        let number = placed.count + n;
        let from = placed.sum + n * weighed.light;
        let met = joined(&sums[from..placed.sum + n * weighed.heavy + 1]);
        *row = if number == 0 {
            0
        } else {
            entries[number] & reached & met
        };
    }
    rows
}

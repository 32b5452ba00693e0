// Where the multisets of n roles with a given largest role start, by rank and in a table. Bounds of a few words stay
// clauses.
ghost use Rattle.std.specs.Prelude.{◌≡◌, ◌≤◌};
ghost use Rattle.multisets.specs.Ranks.{starts, first, Starts};

// How many multisets of n roles below d there are; flat, at 10 times n and d, as the definition `Starts` reads it.
static STARTS: [usize; 70] = [
    1, 1, 1, 1, 1, 1, 1, 1, 1, 1, //
    0, 1, 2, 3, 4, 5, 6, 7, 8, 9, //
    0, 1, 3, 6, 10, 15, 21, 28, 36, 45, //
    0, 1, 4, 10, 20, 35, 56, 84, 120, 165, //
    0, 1, 5, 15, 35, 70, 126, 210, 330, 495, //
    0, 1, 6, 21, 56, 126, 252, 462, 792, 1287, //
    0, 1, 7, 28, 84, 210, 462, 924, 1716, 3003,
];

// The table itself, lent.
fn table() -> &'static [usize; 70]
    ensures { Starts result.now }
{
    &STARTS
}

// Inner: how many multisets of n roles below d there are.
pub fn start_in(n: usize, d: usize) -> usize
    requires { (n ≤ 6) × (d ≤ 9) }
    ensures { (result ≡ starts n d) × (result ≤ 3003) }
{
    table()[10 * n + d]
}

// Inner: where the multisets of n roles start in a table over the roles below d.
pub fn first_in(d: usize, n: usize) -> usize
    requires { (n ≤ 7) × (d ≤ 8) }
    ensures { (result ≡ first d n) × (result ≤ 3003) }
{
    if n == 0 {
        return 0;
    }
    start_in(n - 1, d + 1)
}

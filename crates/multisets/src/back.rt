// From a place that is reached back to a group.
ghost use Rattle.std.specs.Prelude.{◌≡◌, ◌++◌, ◌-◌, ◌*◌, ◌≤◌, replicate};
ghost use Rattle.multisets.specs.Standing.{bytes_back};
ghost use Rattle.multisets.specs.Ends.{back_of, WayIn};

// Inner: the bytes of the group of n entries by which the end at place x came, user and role by rising user, and 255 in
// every byte left.
pub fn group(ends: &[u8], from: &[u16], n: usize, x: usize) -> [u8; 12]
    requires { (n ≤ 6) × WayIn ends.now from.now n x }
    ensures { result ≡ bytes_back (back_of ends.now from.now n x) ++ replicate (12 - 2 * n) 255 }
{
    let mut out = [255u8; 12];
    let mut at = x;
    // Each entry, at 8 times a place and a role, tells where the one before it stands. Of what `chunks_exact_mut`
    // writes no proof would know.
    for left in (0..n).rev() {
        let entry = from[at];
        out[2 * left] = ends[at] - 1;
        out[2 * left + 1] = (entry % 8) as u8;
        at = (entry / 8) as usize;
    }
    out
}

// Seniority: each role's juniors as a set, over chains of H records.
ghost use Rattle.std.specs.Prelude.{◌≡◌, false, ℕ, ◌/◌, ◌^◌, ◌<◌, length, get_or};
ghost use Rattle.std.specs.Int.Bits.{bit_or};
ghost use Rattle.folds.specs.Below.{any_below};
ghost use Rattle.folds.specs.Sets.{in_set};
ghost use Rattle.reader.specs.Rules.{hierarchy_bad};
ghost use Rattle.weights.specs.Setting.{Juniors, next_junior};

use crate::sets;

// Inner: role j and its known juniors.
pub fn with_juniors(j: u8, known: [u8; 8]) -> u8
    requires { j < 8 }
    ensures { result ≡ bit_or (2 ^ j) (get_or known j 0) }
{
    sets::role_bit(j) | known[j as usize]
}

// Inner: role r is a senior of role j, by each role's set of juniors.
pub fn is_senior(juniors: [u8; 8], r: u8, j: u8) -> bool
    requires { (r < 8) × (j < 8) }
    ensures { result ≡ in_set (get_or juniors r 0) j }
{
    sets::in_set(juniors[r as usize] as u32, j)
}

// The juniors of role s, from the known juniors of the roles with higher numbers.
fn juniors_of(h: &[u8], s: u8, known: [u8; 8]) -> u8
    requires { hierarchy_bad 8 h.now ≡ false }
    ensures { (j : ℕ) → in_set result j ≡ any_below (length h.now / 2) (next_junior h.now known s j) }
{
    (0..h.len() / 2).fold(0, |set, i| {
        if h[2 * i] == s {
            set | with_juniors(h[2 * i + 1], known)
        } else {
            set
        }
    })
}

// Inner: the juniors of each role, by a table H that passed the check; a senior's number is smaller, so the highest
// role comes first.
pub fn juniors(h: &[u8]) -> [u8; 8]
    requires { hierarchy_bad 8 h.now ≡ false }
    ensures { Juniors h.now result }
{
    let mut known = [0u8; 8];
    // A role's juniors come from those of the roles with higher numbers.
    for s in (0..8usize).rev() {
        known[s] = juniors_of(h, s as u8, known);
    }
    known
}

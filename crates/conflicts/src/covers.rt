// What policies cover, and which permissions exclude each other.
ghost use Rattle.std.specs.Prelude.{◌≡◌, false, ◌&&◌, ◌||◌, ℕ, ◌<◌, List, length, get_or, eqb};
ghost use Rattle.folds.specs.Sets.{in_set};
ghost use Rattle.reader.specs.Tables.{policies, record_count};
ghost use Rattle.reader.specs.Rules.{exclusions_bad};
ghost use Rattle.weights.specs.Setting.{Juniors};
ghost use Rattle.conflicts.specs.Conflicts.{covers, excludes};
ghost use Rattle.conflicts.specs.Rows.{Covers, Excluded};

use crate::exclusions::Exclusion;
use crate::filling;
use reader::Policies;
use weights::{seniority, sets};

// The set of the roles that have j among their juniors.
fn seniors_of(juniors: &[u8; 8], j: u8) -> u8
    requires { j < 8 }
    ensures { (s : ℕ) → s < 8 → in_set result s ≡ in_set (get_or juniors.now s 0) j }
{
    (0..8u8)
        .filter(|s| seniority::is_senior(*juniors, *s, j))
        .fold(0, |set, s| set | sets::role_bit(s))
}

// The set of the roles that policy i covers, by the juniors of each role as the setting has them: `Acting` would bring
// its base along.
fn cover(a: &Policies<'_>, i: usize, juniors: &[u8; 8]) -> u8
    requires { i < record_count policies a.now }
    ensures { (h : List ℕ) → Juniors h juniors.now → (s : ℕ) → s < 8 → in_set result s ≡ covers h a.now i s }
{
    let role = a.role(i);
    let own = sets::role_bit(role);
    if a.is_inherited(i) {
        own | seniors_of(juniors, role)
    } else {
        own
    }
}

// Inner: the sets of the roles that the policies cover, by each role's juniors.
pub fn cover_sets(juniors: &[u8; 8], a: &Policies<'_>) -> [u8; 64]
    ensures { (h : List ℕ) → Juniors h juniors.now → Covers h a.now result }
{
    let mut sets = [0; 64];
    filling::fill(&mut sets[..a.count()], |i| cover(a, i, juniors));
    sets
}

// Adds q to the set of p.
fn add_pair(excluded: &mut [u32; 16], p: u8, q: u8)
    requires { (p < 16) × (q < 16) }
    ensures { (s t : ℕ) → in_set (get_or excluded.new s 0) t
        ≡ (in_set (get_or excluded.old s 0) t || (eqb p s && eqb q t)) }
{
    excluded[p as usize] |= sets::bit(q);
}

// Adds to the sets what an exclusion record says, if it is of permissions.
fn add_exclusion(excluded: &mut [u32; 16], exclusion: &[u8])
    requires { (length exclusion.now ≡ 3) × (exclusions_bad 8 16 exclusion.now ≡ false) }
    ensures { (s t : ℕ) → in_set (get_or excluded.new s 0) t
        ≡ (in_set (get_or excluded.old s 0) t || excludes exclusion.now s t 0) }
{
    if let Exclusion::Permissions(p, q) = Exclusion::read(exclusion) {
        add_pair(excluded, p, q);
        add_pair(excluded, q, p);
    }
}

// Inner: the permissions that each permission excludes, a set a permission.
pub fn excluded_sets(x: &[u8]) -> [u32; 16]
    requires { exclusions_bad 8 16 x.now ≡ false }
    ensures { Excluded x.now result }
{
    let mut excluded = [0; 16];
    // A record adds to two of the sets, so that no chain makes them one by one.
    for exclusion in x.chunks_exact(3) {
        add_exclusion(&mut excluded, exclusion);
    }
    excluded
}

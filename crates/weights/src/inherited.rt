// A role's weight: its own, and what its juniors hand on.
ghost use Rattle.std.specs.Prelude.{◌≡◌, ℕ, ◌+◌, ◌*◌, ◌≤◌, ◌<◌, length, get_or};
ghost use Rattle.weights.specs.Setting.{given, HandedOn};

use crate::{policies, seniority};

// What junior j, which hands on x, gives to role r.
fn share(juniors: [u8; 8], r: u8, j: u8, x: u8) -> u8
    requires { (r < 8) × (j < 8) }
    ensures { (result ≡ given (get_or juniors r 0) j x) × (result ≤ x) }
{
    if seniority::is_senior(juniors, r, j) {
        x
    } else {
        0
    }
}

// Inner: junior j hands on x to each role that is its senior.
pub fn hand_on(w: &mut [u8; 8], juniors: [u8; 8], j: u8, x: u8)
    requires { (length w.old ≡ 8) × (j < 8) × ((r : ℕ) → r < 8 → get_or w.old r 0 + x ≤ 255) }
    ensures { HandedOn juniors j x 8 w.old w.new }
{
    if x == 0 {
        return;
    }
    for (r, weight) in w.iter_mut().enumerate() {
        *weight += share(juniors, r as u8, j, x);
    }
}

// Inner: the roles' own weights for one permission.
pub fn own_weights(own: &[u8; 128], permission: u8) -> [u8; 8]
    requires { permission < 16 }
    ensures { (length result ≡ 8) × ((r : ℕ) → r < 8 → get_or result r 0 ≡ get_or own.now (8 * permission + r) 0) }
{
    let at = policies::place_of(permission, 0);
    let mut w = [0u8; 8];
    w.copy_from_slice(&own[at..at + 8]);
    w
}

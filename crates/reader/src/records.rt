// The records of H, A and X: refusals 4, 8 and 9.
// A record's tests are joined by `|`, not `||`: one path to prove.
ghost use Rattle.std.specs.Prelude.{◌≡◌, ◌+◌, ◌*◌, ◌≤◌, length};
ghost use Rattle.reader.specs.Rules.{hierarchy_bad, policy_bad, policies_bad, exclusion_bad, exclusions_bad};

use crate::trailer::Numbers;

// Inner: refusal 4.
pub fn hierarchy_bad(h: &[u8], roles: u8) -> bool
    ensures { result ≡ hierarchy_bad roles h.now }
{
    (0..h.len() / 2).any(|i| {
        let junior = h[2 * i + 1];
        (junior <= h[2 * i]) | (roles <= junior)
    })
}

fn policy_bad(a: &[u8], i: usize, numbers: Numbers) -> bool
    requires { 8 * i + 8 ≤ length a.now }
    ensures { result ≡ policy_bad numbers.roles numbers.permissions a.now i }
{
    let at = 8 * i;
    let weight = a[at + 2];
    let context = a[at + 4];
    (numbers.roles <= a[at])
        | (numbers.permissions <= a[at + 1])
        | (weight < 1)
        | (5 < weight)
        | (1 < a[at + 3])
        | ((15 < context) & (context != 255))
}

// Inner: refusal 8.
pub fn policies_bad(a: &[u8], numbers: Numbers) -> bool
    ensures { result ≡ policies_bad numbers.roles numbers.permissions a.now }
{
    (0..a.len() / 8).any(|i| policy_bad(a, i, numbers))
}

fn exclusion_bad(x: &[u8], i: usize, numbers: Numbers) -> bool
    requires { 3 * i + 3 ≤ length x.now }
    ensures { result ≡ exclusion_bad numbers.roles numbers.permissions x.now i }
{
    let at = 3 * i;
    let kind = x[at];
    let second = x[at + 2];
    // By the byte: before this check it may be any of 256.
    let end = if kind == 0 {
        numbers.roles
    } else {
        numbers.permissions
    };
    (1 < kind) | (second <= x[at + 1]) | (end <= second)
}

// Inner: refusal 9.
pub fn exclusions_bad(x: &[u8], numbers: Numbers) -> bool
    ensures { result ≡ exclusions_bad numbers.roles numbers.permissions x.now }
{
    (0..x.len() / 3).any(|i| exclusion_bad(x, i, numbers))
}

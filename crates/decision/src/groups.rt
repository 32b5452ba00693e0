// A group's entries and its attributes: refusals 12 to 16, and 24.
ghost use Rattle.std.specs.Prelude.{◌≡◌, ℕ, ◌+◌, ◌*◌, ◌/◌, ◌≤◌, ◌<◌, length, get_or};
ghost use Rattle.reader.specs.Days.{out_of_days};
ghost use Rattle.weights.specs.Acting.{may_act};
ghost use Rattle.decision.specs.Groups.{entry_count, entry_user, entry_role, sum_of, roles_of, length_refused};
ghost use Rattle.decision.specs.Groups.{unknown, some_unknown, stands_before, some_twice, some_ineligible};
ghost use Rattle.decision.specs.Groups.{some_out_of_date, some_weightless};

use reader::users::Days;
use weights::acting::Acting;

// An entry of a group: a user, and the role acted in.
#[derive(Clone, Copy)]
pub struct Entry {
    pub user: u8,
    pub role: u8,
}

impl Entry {
    // Inner: entry i of a group.
    pub fn of(g: &[u8], i: usize) -> Entry
        requires { 2 * i + 2 ≤ length g.now }
        ensures { (result.user ≡ entry_user g.now i) × (result.role ≡ entry_role g.now i) }
    {
        Entry {
            user: g[2 * i],
            role: g[2 * i + 1],
        }
    }
}

// Inner: refusal 12.
pub fn length_refused(g: &[u8]) -> bool
    ensures { result ≡ length_refused g.now }
{
    g.is_empty() || g.len() % 2 != 0 || 12 < g.len()
}

// Inner: refusal 13 of one entry.
pub fn is_unknown(users: usize, roles: u8, user: u32, role: u32) -> bool
    ensures { result ≡ unknown users roles user role }
{
    users <= user as usize || u32::from(roles) <= role
}

// Inner: refusal 13.
pub fn some_unknown(g: &[u8], users: usize, roles: u8) -> bool
    ensures { result ≡ some_unknown users roles g.now }
{
    (0..g.len() / 2).any(|i| {
        let Entry { user, role } = Entry::of(g, i);
        is_unknown(users, roles, u32::from(user), u32::from(role))
    })
}

fn stands_before(g: &[u8], i: usize) -> bool
    requires { 2 * i + 2 ≤ length g.now }
    ensures { result ≡ stands_before g.now i }
{
    (0..i).any(|j| Entry::of(g, j).user == Entry::of(g, i).user)
}

// Inner: refusal 14.
pub fn some_twice(g: &[u8]) -> bool
    ensures { result ≡ some_twice g.now }
{
    (0..g.len() / 2).any(|i| stands_before(g, i))
}

// Inner: refusal 15, by who may act in a role.
pub fn some_ineligible(g: &[u8], acting: &Acting<'_>) -> bool
    ensures { result ≡ some_ineligible (may_act acting.now) g.now }
{
    (0..g.len() / 2).any(|i| {
        let Entry { user, role } = Entry::of(g, i);
        !acting.may_act(user as usize, role as usize)
    })
}

// What follows asks of any bytes just what it needs; `Members` says it once, for callers.

// Inner: refusal 24, for users that are there.
pub fn some_out_of_date(g: &[u8], users: &[u8], date: u32) -> bool
    requires { (i : ℕ) → i < entry_count g.now → entry_user g.now i < length users.now / 8 }
    ensures { result ≡ some_out_of_date (out_of_days users.now date) g.now }
{
    (0..g.len() / 2).any(|i| Days::of(users, Entry::of(g, i).user as usize).leave_out(date))
}

// Inner: refusal 16, for roles below 8.
pub fn some_weightless(g: &[u8], w: [u8; 8]) -> bool
    requires { (i : ℕ) → i < entry_count g.now → entry_role g.now i < 8 }
    ensures { result ≡ some_weightless (λ k. get_or w k 0) g.now }
{
    (0..g.len() / 2).any(|i| w[Entry::of(g, i).role as usize] == 0)
}

// Inner: the number of entries of a group that is not too long.
pub fn entry_count(g: &[u8]) -> u32
    requires { length g.now ≤ 12 }
    ensures { result ≡ entry_count g.now }
{
    (g.len() / 2) as u32
}

// Inner: the sum of the roles' weights.
pub fn sum_of(g: &[u8], w: [u8; 8]) -> u32
    requires { (length g.now ≤ 12) ×
        ((i : ℕ) → i < entry_count g.now → entry_role g.now i < 8) ×
        ((r : ℕ) → r < 8 → get_or w r 0 ≤ 40) }
    ensures { (result ≡ sum_of (λ k. get_or w k 0) g.now) × (result ≤ 240) }
{
    (0..g.len() / 2)
        .map(|i| w[Entry::of(g, i).role as usize] as u32)
        .sum()
}

// Inner: the set of the roles acted in.
pub fn roles_of(g: &[u8]) -> u8
    requires { (i : ℕ) → i < entry_count g.now → entry_role g.now i < 8 }
    ensures { result ≡ roles_of g.now }
{
    (0..g.len() / 2).fold(
        0,
        |set, i| set | weights::sets::role_bit(Entry::of(g, i).role),
    )
}

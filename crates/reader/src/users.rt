// The records of U: a user's days, and refusal 5.
ghost use Rattle.std.specs.Prelude.{◌≡◌, ◌+◌, ◌*◌, ◌≤◌, length, ltb};
ghost use Rattle.reader.specs.Fields.{first_day, last_day};
ghost use Rattle.reader.specs.Rules.{outside, user_bad, users_bad};

use crate::{bytes, codes};

// A user's days: the first and the last, both included.
#[derive(Clone, Copy)]
pub struct Days {
    pub first: u16,
    pub last: u16,
}

impl Days {
    // Inner: those of a user.
    pub fn of(users: &[u8], user: usize) -> Days
        requires { 8 * user + 8 ≤ length users.now }
        ensures { (result.first ≡ first_day users.now user) × (result.last ≡ last_day users.now user) }
    {
        Days {
            first: bytes::get16(users, 8 * user + 4),
            last: bytes::get16(users, 8 * user + 6),
        }
    }

    // Inner: the first day is above the last.
    pub fn are_turned(self) -> bool
        ensures { result ≡ ltb self.last self.first }
    {
        self.last < self.first
    }

    // Inner: the date is before the first day or after the last.
    pub fn leave_out(self, date: u32) -> bool
        ensures { result ≡ outside self.first self.last date }
    {
        date < u32::from(self.first) || u32::from(self.last) < date
    }
}

fn user_bad(users: &[u8], i: usize, roles: u8) -> bool
    requires { (8 * i + 8 ≤ length users.now) × (roles ≤ 8) }
    ensures { result ≡ user_bad roles users.now i }
{
    !codes::parameter_ok(bytes::get32(users, 8 * i), roles) || Days::of(users, i).are_turned()
}

// Inner: refusal 5.
pub fn users_bad(users: &[u8], roles: u8) -> bool
    requires { roles ≤ 8 }
    ensures { result ≡ users_bad roles users.now }
{
    (0..users.len() / 8).any(|i| user_bad(users, i, roles))
}

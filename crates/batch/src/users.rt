// Who may stand in a group, in which role: a word for each user and role, worked out once.
ghost use Rattle.std.specs.Prelude.{◌≡◌, ℕ, ◌+◌, ◌*◌, ◌^◌, ◌≤◌, ◌<◌, length, true, MatchOption, get_or, cond};
ghost use Rattle.std.specs.Int.Bits.{bit_or};
ghost use Rattle.folds.specs.Sets.{in_set};
ghost use Rattle.weights.specs.Setting.{FixedBy};
ghost use Rattle.decision.specs.Groups.{entry_count, some_unknown};
ghost use Rattle.batch.specs.Asked.{Entries, UserWord, RoleWords, WordsOf};

use decision::groups::{self, Entry};
use reader::users::Days;
use reader::{Base, Refusal, Table};
use weights::acting::Acting;
use weights::{Fixed, sets};

// The bits of the 24 users in a word.
const USERS: u32 = 0xff_ffff;

// The bit of a word for a role in which the user may not act.
const UNABLE: u8 = 24;

// The bit of a word for a date out of the user's days.
const LATE: u8 = 25;

// Of each user and role a word, at place 8 * user + role: the user's bit, and the two above where they apply.
#[derive(Clone, Copy)]
pub struct Users {
    pub user_count: usize,
    pub role_count: u8,
    pub words: [u32; 192],
    pub ghost few: { (user_count ≤ 24) × (role_count ≤ 8) },
}

// What one look at a group's entries tells: the union of their words, the bits that two of these words share, the sum
// of the weights, and the set of the roles.
#[derive(Clone, Copy)]
pub struct Seen {
    pub words: u32,
    pub twice: u32,
    pub sum: u32,
    pub roles: u8,
}

// The user's bit, and the one for a late user.
fn user_word(user: u8, late: bool) -> u32
    requires { user < 24 }
    ensures { UserWord user late result }
{
    if late {
        sets::bit(user) | sets::bit(LATE)
    } else {
        sets::bit(user)
    }
}

// Writes a user's words by the roles in which the user may act.
fn write_words(words: &mut [u32], user: u32, able: u8)
    requires { length words.old ≡ 8 }
    ensures { RoleWords user able words.new }
{
    for (r, word) in words.iter_mut().enumerate() {
        *word = if sets::in_set(u32::from(able), r as u8) {
            user
        } else {
            user | sets::bit(UNABLE)
        };
    }
}

// The words of all users.
fn words_of(base: &Base<'_>, s: Fixed) -> [u32; 192]
    requires { FixedBy base.now s }
    ensures { WordsOf base.now s.at result }
{
    let acting = Acting::by(base, s.juniors);
    let users = base.part(Table::Users);
    let mut words = [0; 192];
    for u in 0..base.user_count() {
        let user = user_word(u as u8, Days::of(users, u).leave_out(s.at.date));
        write_words(&mut words[8 * u..8 * u + 8], user, acting.roles(u));
    }
    words
}

impl Users {
    ghost use Rattle.batch.specs.Steps.{UsersOf, Looked};

    // Inner: those of an accepted base in a setting.
    pub fn of(base: &Base<'_>, s: Fixed) -> Users
        requires { FixedBy base.now s }
        ensures { UsersOf base.now s.at result }
    {
        Users {
            user_count: base.user_count(),
            role_count: base.role_count(),
            words: words_of(base, s),
        }
    }

    // Inner: what a group's entries tell, by the roles' weights, or none where a user or a role isn't there.
    pub fn look(&self, group: &[u8], w: [u8; 8]) -> Option<Seen>
        requires { Entries group.now × ((r : ℕ) → r < 8 → get_or w r 0 ≤ 40) }
        ensures { MatchOption result (some_unknown self.now.user_count self.now.role_count group.now ≡ true)
            (λ seen. Looked self.now w group.now (entry_count group.now) seen) }
    {
        let mut seen = Seen {
            words: 0,
            twice: 0,
            sum: 0,
            roles: 0,
        };
        for i in 0..group.len() / 2 {
            let Entry { user, role } = Entry::of(group, i);
            if groups::is_unknown(
                self.user_count,
                self.role_count,
                u32::from(user),
                u32::from(role),
            ) {
                return None;
            }
            let word = self.words[8 * user as usize + role as usize];
            seen.twice |= seen.words & word;
            seen.words |= word;
            seen.sum += u32::from(w[role as usize]);
            seen.roles |= sets::role_bit(role);
        }
        Some(seen)
    }
}

impl Seen {
    ghost use Rattle.std.specs.Prelude.{not, eqb};
    ghost use Rattle.folds.specs.Below.{any_below};
    ghost use Rattle.reader.specs.Refusals.{number_of};

    // Inner: 14 where a user's bit is there twice, 15 where one may not act, 24 where one is late.
    pub fn users_refusal(self) -> Result<(), Refusal>
        ensures { number_of result ≡ cond (any_below 24 (in_set self.twice)) 14
            (cond (in_set self.words 24) 15 (cond (in_set self.words 25) 24 0)) }
    {
        if self.twice & USERS != 0 {
            return Err(Refusal::Twice);
        }
        if sets::in_set(self.words, UNABLE) {
            return Err(Refusal::Ineligible);
        }
        if sets::in_set(self.words, LATE) {
            return Err(Refusal::OutOfDate);
        }
        Ok(())
    }
}

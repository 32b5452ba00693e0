// The register of statements by which one approver trusts another: refusals 25 and 26, and the test of 27.
ghost use Rattle.std.specs.Prelude.{ℕ, Bool, not, ◌≡◌, ◌&&◌, ◌||◌, ◌+◌, ◌*◌, ◌≤◌, length, leb, eqb, ltb};
ghost use Rattle.reader.specs.Rules.{outside};
ghost use Rattle.vouch.specs.Register.{issuer, requester, stated_permission, trust, valid_from, valid_to};
ghost use Rattle.vouch.specs.Register.{statement_bad, register_refused};
ghost use Rattle.vouch.specs.Vouching.{vouches, some_unvouched};

use decision::groups::Entry;
use reader::bytes;
use reader::users::Days;

// A statement: its issuer trusts its requester so much, for a permission and on some days.
#[derive(Clone, Copy)]
pub struct Statement {
    pub issuer: u8,
    pub requester: u8,
    pub permission: u8,
    pub trust: u8,
    pub days: Days,
}

// On which terms a statement counts: for a permission, from so much trust on, on a date.
#[derive(Clone, Copy)]
pub struct Terms {
    pub permission: u8,
    pub threshold: u32,
    pub date: u32,
}

impl Statement {
    // Inner: statement i of a register.
    pub fn of(register: &[u8], i: usize) -> Statement
        requires { 8 * i + 8 ≤ length register.now }
        ensures { (result.issuer ≡ issuer register.now i) × (result.requester ≡ requester register.now i)
            × (result.permission ≡ stated_permission register.now i) × (result.trust ≡ trust register.now i)
            × (result.days.first ≡ valid_from register.now i) × (result.days.last ≡ valid_to register.now i) }
    {
        let at = 8 * i;
        Statement {
            issuer: register[at],
            requester: register[at + 1],
            permission: register[at + 2],
            trust: register[at + 3],
            days: Days {
                first: bytes::get16(register, at + 4),
                last: bytes::get16(register, at + 6),
            },
        }
    }

    // It breaks the rules, by the numbers of users and permissions.
    fn is_bad(self, users: usize, permissions: u8) -> bool
        ensures { result ≡ (not (ltb self.issuer users) || (not (ltb self.requester users)
            || (not (ltb self.permission permissions)
            || (outside 1 5 self.trust || ltb self.days.last self.days.first)))) }
    {
        users <= usize::from(self.issuer)
            || users <= usize::from(self.requester)
            || permissions <= self.permission
            || off_scale(u32::from(self.trust))
            || self.days.are_turned()
    }

    // It has so much trust, and is valid on the date.
    fn is_valid(self, threshold: u32, date: u32) -> bool
        ensures { result ≡ (leb threshold self.trust && not (outside self.days.first self.days.last date)) }
    {
        threshold <= u32::from(self.trust) && !self.days.leave_out(date)
    }

    // Inner: it is one to the requester, with so much trust and valid on the date.
    pub fn serves(self, requester: u8, threshold: u32, date: u32) -> bool
        ensures { result ≡ (eqb self.requester requester && (leb threshold self.trust
            && not (outside self.days.first self.days.last date))) }
    {
        self.requester == requester && self.is_valid(threshold, date)
    }

    // It is one from the issuer to the requester, and it counts on these terms.
    fn states(self, issuer: u8, requester: u8, terms: Terms) -> bool
        ensures { result ≡ (eqb self.issuer issuer && (eqb self.requester requester
            && (eqb self.permission terms.permission && (leb terms.threshold self.trust
            && not (outside self.days.first self.days.last terms.date))))) }
    {
        self.issuer == issuer
            && self.requester == requester
            && self.permission == terms.permission
            && self.is_valid(terms.threshold, terms.date)
    }
}

// Inner: it isn't a degree of trust, 1 to 5.
pub fn off_scale(trust: u32) -> bool
    ensures { result ≡ outside 1 5 trust }
{
    trust < 1 || 5 < trust
}

// Inner: refusal 25.
pub fn register_refused(register: &[u8], users: usize, permissions: u8) -> bool
    ensures { result ≡ register_refused users permissions register.now }
{
    register.len() % 8 != 0
        || 2048 < register.len()
        || (0..register.len() / 8).any(|i| Statement::of(register, i).is_bad(users, permissions))
}

// The issuer vouches for the requester on these terms.
fn vouches(register: &[u8], issuer: u8, requester: u8, terms: Terms) -> bool
    ensures { result ≡ vouches register.now terms.threshold terms.permission terms.date issuer requester }
{
    (0..register.len() / 8).any(|i| Statement::of(register, i).states(issuer, requester, terms))
}

// Inner: refusal 26.
pub fn some_unvouched(register: &[u8], g: &[u8], terms: Terms) -> bool
    ensures { result ≡ some_unvouched (vouches register.now terms.threshold terms.permission terms.date) g.now }
{
    (0..g.len() / 2).any(|i| {
        0 < i && !vouches(register, Entry::of(g, i).user, Entry::of(g, 0).user, terms)
    })
}

// The records of K and C, 16 bytes each: the second byte is the number n of conditions, and each condition stands in a
// slot of its own. The slots beyond the n, and the last 2 bytes, are zero bytes.
// A record stays a table and a number, with the bound in each clause: of a type of the two each clause would say
// `record.now.table` and `record.now.i` where the definitions take `records` and `i`. `roles ≤ 8` stays a clause too,
// as in `codes`: a type of it would be named more often than it is said.
ghost use Rattle.std.specs.Prelude.{ℕ, Bool, not, List, ◌≡◌, ◌+◌, ◌*◌, ◌≤◌, ◌<◌, length};
ghost use Rattle.folds.specs.Below.{all_below};
ghost use Rattle.reader.specs.Fields.{condition_count};
ghost use Rattle.reader.specs.Rules.{slot_bad, rest_bad};

use crate::bytes;

// Inner: a condition, as the slots of a table have it.
pub trait Condition: Copy + Default + PartialEq {
    // The slots of a record.
    const SLOTS: usize;

    ghost SLOTS: { ℕ };

    ghost at: { List ℕ → ℕ → ℕ → Self };

    ghost bad: { ℕ → Self → Bool };

    ghost nonzero: { Self → Bool };

    // Inner: slot j of record i, used or not.
    fn read(records: &[u8], i: usize, j: usize) -> Self
        requires { (16 * i + 16 ≤ length records.now) × (j < SLOTS) }
        ensures { result ≡ at records.now i j };

    // Inner: breaks the rules of its table, by the number of roles.
    fn is_bad(self, roles: u8) -> bool
        requires { roles ≤ 8 }
        ensures { result ≡ bad roles self };

    // Inner: not all bytes of the slot are zero.
    fn is_nonzero(self) -> bool
        ensures { result ≡ nonzero self }
    {
        self != Self::default()
    }

    // What isn't the default is nonzero.
    ghost blank: { (x d : Self) → Self.is_default d → not (Self.eq x d) ≡ nonzero x };
}

// Inner: the number of conditions of record i.
pub fn count(records: &[u8], i: usize) -> usize
    requires { 16 * i + 16 ≤ length records.now }
    ensures { (result ≡ condition_count records.now i) × (result < 256) }
{
    usize::from(records[16 * i + 1])
}

// Inner: each of the n conditions of record i passes the test.
pub fn all_pass<C: Condition, F: Fn(C) -> bool>(records: &[u8], i: usize, test: F) -> bool
    requires inside { (16 * i + 16 ≤ length records.now) × (condition_count records.now i ≤ C.SLOTS) }
    requires callable { (j : ℕ) → j < condition_count records.now i → F.pre test (C.at records.now i j) }
    ensures { (p : ℕ → Bool) → ((j : ℕ) (r : Bool) → j < condition_count records.now i →
        F.post test (C.at records.now i j) r → r ≡ p j) → result ≡ all_below (condition_count records.now i) p }
{
    (0..count(records, i))
        .map(|j| C::read(records, i, j))
        .all(test)
}

// Slot j of record i: one of the n, which keeps the rules, or one beyond n, which is zero bytes.
fn slot_bad<C: Condition>(records: &[u8], i: usize, j: usize, roles: u8) -> bool
    requires { (16 * i + 16 ≤ length records.now) × (j < C.SLOTS) × (roles ≤ 8) }
    ensures { result ≡ slot_bad C.at (C.bad roles) C.nonzero records.now i j }
{
    let condition = C::read(records, i, j);
    if j < count(records, i) {
        condition.is_bad(roles)
    } else {
        condition.is_nonzero()
    }
}

// What record i breaks behind its first byte. `|` makes each of its tests, whatever the others say, without a branch.
pub(crate) fn rest_bad<C: Condition>(records: &[u8], i: usize, roles: u8) -> bool
    requires { (16 * i + 16 ≤ length records.now) × (roles ≤ 8) }
    ensures { result ≡ rest_bad C.SLOTS (slot_bad C.at (C.bad roles) C.nonzero records.now i) records.now i }
{
    let n = count(records, i);
    let slots_bad = (0..C::SLOTS).any(|j| slot_bad::<C>(records, i, j, roles));
    let zeros = bytes::get16(records, 16 * i + 14);
    (n < 1) | (C::SLOTS < n) | slots_bad | (zeros != 0)
}

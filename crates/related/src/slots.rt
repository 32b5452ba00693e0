// Which of the context numbers that the policies name are related, worked out once.
ghost use Rattle.std.specs.Prelude.{◌≡◌, false, ◌⊎◌, ℕ, ◌*◌, ◌≤◌, ◌<◌, length};
ghost use Rattle.folds.specs.Sets.{in_set};
ghost use Rattle.reader.specs.Tables.{contexts, record_count};
ghost use Rattle.reader.specs.Rules.{contexts_bad, policies_bad};
ghost use Rattle.related.specs.Slots.{slot_of, number_at, named, related_slots, Relations};

use crate::clauses::ContextClauses;
use std::array;

// Inner: the place of a context number in the rows: its own, 0 to 15; 16 for 255, the base's number of no context.
// No `Option` for it: the definitions take the number.
pub fn slot(number: u8) -> u8
    requires { (number ≤ 15) ⊎ (number ≡ 255) }
    ensures { (result ≡ slot_of number) × (result ≤ 16) }
{
    if number == 255 { 16 } else { number }
}

// The context number whose place is s.
fn number_at(s: u8) -> u8
    ensures { result ≡ number_at s }
{
    if s == 16 { 255 } else { s }
}

// Inner: the set of the slots that the policies name. It takes a table's bytes, since it asks less than `Policies`
// promises: 256 permissions in place of 16.
pub fn names(a: &[u8]) -> u32
    requires { policies_bad 8 256 a.now ≡ false }
    ensures { (s : ℕ) → in_set result s ≡ named a.now s }
{
    (0..a.len() / 8).fold(0, |set, i| set | weights::sets::bit(slot(a[8 * i + 4])))
}

// Slots s and t are named, s isn't above t, and their numbers are related.
fn slots_related(c: &ContextClauses<'_>, names: u32, s: u8, t: u8) -> bool
    requires { (s < 17) × (t < 17) }
    ensures { result ≡ related_slots c.now names s t }
{
    weights::sets::in_set(names, s)
        && weights::sets::in_set(names, t)
        && s <= t
        && c.are_related(number_at(s), number_at(t))
}

fn relation_row(c: &ContextClauses<'_>, names: u32, s: u8) -> u32
    requires { s < 17 }
    ensures { (t : ℕ) → t < 17 → in_set result t ≡ related_slots c.now names s t }
{
    if weights::sets::in_set(names, s) {
        (s..17)
            .filter(|t| slots_related(c, names, s, *t))
            .fold(0, |row, t| row | weights::sets::bit(t))
    } else {
        0
    }
}

// Inner: the related slots, a row a slot. Of bytes: the type of such a table is of a private module, and made here.
pub fn relations(c: &[u8], names: u32) -> [u32; 17]
    requires { (contexts_bad c.now ≡ false) × (length c.now ≡ 16 * record_count contexts c.now) }
    ensures { Relations c.now names result }
{
    let clauses = ContextClauses::of(c);
    array::from_fn(|s| relation_row(&clauses, names, s as u8))
}

// The conflicts of each kind as rows of bits, a row for each first.
ghost use Rattle.std.specs.Prelude.{◌≡◌, false, ◌&&◌, ◌⊎◌, ℕ, Bool, ◌≤◌, ◌<◌, get_or, ltb};
ghost use Rattle.folds.specs.Sets.{in_set};
ghost use Rattle.reader.specs.Tables.{hierarchy, users, policies, exclusions, table_of, record_count};
ghost use Rattle.reader.specs.Rules.{exclusions_bad};
ghost use Rattle.weights.specs.Setting.{Juniors, ActingSets};
ghost use Rattle.conflicts.specs.Conflicts.{disagree, both_among};
ghost use Rattle.conflicts.specs.Kinds.{kind_number};
ghost use Rattle.conflicts.specs.Rows.{related_by, contradict_by, overlap_by, Contradictions, Overlaps, Holders};

use crate::exclusions::Exclusion;
use crate::{covers, filling};
use reader::{Base, Policies, Table};
use related::slots;
use weights::sets;

// The kinds of conflict, by the number that stands first in a record.
#[derive(Clone, Copy)]
pub enum Kind {
    Contradiction = 1,
    Overlap = 2,
    Holder = 3,
}

// Inner: its number.
impl From<Kind> for u8 {
    ghost from_gives = { λ kind n. n ≡ kind_number kind };

    fn from(kind: Kind) -> u8 {
        kind as u8
    }
}

// The conflicts of one kind: a row for each first, with the bits of those that come second beside it. Nothing is
// allocated: there is room for 64 rows, of which those below `firsts` are made.
#[derive(Drop)]
pub struct Conflicts {
    pub kind: Kind,
    pub firsts: usize,
    pub rows: [u64; 64],
    ghost few: { firsts ≤ 64 },
}

impl Conflicts {
    // Those of a kind, with the row that `make` gives for each first.
    fn of<F: Fn(usize) -> u64>(kind: Kind, firsts: usize, make: F) -> Conflicts
        requires few { firsts ≤ 64 }
        requires callable { (i : ℕ) → i < firsts → F.pre make i }
        ensures kind { result.kind ≡ kind }
        ensures firsts { result.firsts ≡ firsts }
        ensures rows { (i : ℕ) → i < firsts → F.post make i (get_or result.rows i 0) }
    {
        let mut rows = [0; 64];
        filling::fill(&mut rows[..firsts], make);
        Conflicts { kind, firsts, rows }
    }
}

// The set of the numbers from `from` on that lie before `end` and pass the test.
fn row<F: Fn(usize) -> bool>(from: usize, end: usize, test: F) -> u64
    requires inside { (from ≤ end) × (end ≤ 64) }
    requires callable { (j : ℕ) → from ≤ j → j < end → F.pre test j }
    ensures { (p : ℕ → Bool) → ((j : ℕ) (r : Bool) → from ≤ j → j < end → F.post test j r → r ≡ p j) →
        ((j : ℕ) → j < from → p j ≡ false) → (j : ℕ) → in_set result j ≡ (ltb j end && p j) }
{
    (from..end)
        .filter(
            |j|
                requires { F.pre test j.now }
                ensures { F.post test j.now result }
            { test(*j) },
        )
        .fold(0, |row, j| row | sets::wide_bit(j))
}

// Policies i and j have equal role and permission, and different weight or type.
fn policies_disagree(a: &Policies<'_>, i: usize, j: usize) -> bool
    requires { (i < record_count policies a.now) × (j < record_count policies a.now) }
    ensures { result ≡ disagree a.now i j }
{
    a.role(i) == a.role(j)
        && a.permission(i) == a.permission(j)
        && (a.weight(i) != a.weight(j) || a.is_inherited(i) != a.is_inherited(j))
}

// The context numbers x and y are related, by the rows of related slots.
fn related_by(rows: &[u32; 17], x: u8, y: u8) -> bool
    requires { ((x ≤ 15) ⊎ (x ≡ 255)) × ((y ≤ 15) ⊎ (y ≡ 255)) }
    ensures { result ≡ related_by rows.now x y }
{
    let s = slots::slot(x);
    let t = slots::slot(y);
    sets::in_set(rows[s.min(t) as usize], s.max(t))
}

// Kind 1 for the policies i and j, of which i comes first.
fn contradict_by(rows: &[u32; 17], a: &Policies<'_>, i: usize, j: usize) -> bool
    requires { (i < j) × (j < record_count policies a.now) }
    ensures { result ≡ contradict_by rows.now a.now i j }
{
    policies_disagree(a, i, j) && related_by(rows, a.context(i), a.context(j))
}

fn contradict_row(rows: &[u32; 17], a: &Policies<'_>, i: usize) -> u64
    requires { i < record_count policies a.now }
    ensures { (j : ℕ) → in_set result j ≡ (ltb j (record_count policies a.now) && contradict_by rows.now a.now i j) }
{
    let end = a.count();
    row(i + 1, end, |j| contradict_by(rows, a, i, j))
}

// Kind 2 for the policies i and j, of which i comes first.
fn overlap_by(apart: &[u32; 16], covered: &[u8; 64], a: &Policies<'_>, i: usize, j: usize) -> bool
    requires { (i < j) × (j < record_count policies a.now) × (j < 64) }
    ensures { result ≡ overlap_by apart.now covered.now a.now i j }
{
    sets::in_set(apart[a.permission(i) as usize], a.permission(j)) && covered[i] & covered[j] != 0
}

fn overlap_row(apart: &[u32; 16], covered: &[u8; 64], a: &Policies<'_>, i: usize) -> u64
    requires { i < record_count policies a.now }
    ensures { (j : ℕ) → in_set result j
        ≡ (ltb j (record_count policies a.now) && overlap_by apart.now covered.now a.now i j) }
{
    let end = a.count();
    row(i + 1, end, |j| overlap_by(apart, covered, a, i, j))
}

// Kind 3 for exclusion record e and a user who may act in this set of roles.
fn both_among(roles: u8, x: &[u8], e: usize) -> bool
    requires { (exclusions_bad 8 16 x.now ≡ false) × (e < record_count exclusions x.now) }
    ensures { result ≡ both_among (in_set roles) x.now e }
{
    match Exclusion::read(&x[3 * e..3 * e + 3]) {
        Exclusion::Roles(r, s) => sets::in_set(roles as u32, r) && sets::in_set(roles as u32, s),
        Exclusion::Permissions(..) => false,
    }
}

fn holds_row(roles: u8, x: &[u8]) -> u64
    requires { (exclusions_bad 8 16 x.now ≡ false) × (record_count exclusions x.now ≤ 64) }
    ensures { (j : ℕ) → in_set result j ≡ (ltb j (record_count exclusions x.now) && both_among (in_set roles) x.now j) }
{
    row(0, x.len() / 3, |e| both_among(roles, x, e))
}

// Inner: the conflicts of kind 1 of an accepted base, a row for each policy.
pub fn contradictions(base: &Base<'_>) -> Conflicts
    ensures kind { kind_number result.kind ≡ 1 }
    ensures firsts { result.firsts ≡ record_count policies (table_of base.now policies) }
    ensures rows { Contradictions base.now result.rows }
{
    let a = base.policies();
    let names = slots::names(a.bytes());
    let related = slots::relations(base.part(Table::Contexts), names);
    Conflicts::of(
        Kind::Contradiction,
        a.count(),
        |i| contradict_row(&related, &a, i),
    )
}

// Inner: the conflicts of kind 2 of an accepted base, by the juniors of each role, a row for each policy.
pub fn overlaps(base: &Base<'_>, juniors: [u8; 8]) -> Conflicts
    requires { Juniors (table_of base.now hierarchy) juniors }
    ensures kind { kind_number result.kind ≡ 2 }
    ensures firsts { result.firsts ≡ record_count policies (table_of base.now policies) }
    ensures rows { Overlaps base.now result.rows }
{
    let a = base.policies();
    let covered = covers::cover_sets(&juniors, &a);
    let apart = covers::excluded_sets(base.part(Table::Exclusions));
    Conflicts::of(
        Kind::Overlap,
        a.count(),
        |i| overlap_row(&apart, &covered, &a, i),
    )
}

// Inner: the conflicts of kind 3 of an accepted base, by the roles in which each user may act, a row for each user.
pub fn holders(base: &Base<'_>, acting: &[u8; 24]) -> Conflicts
    requires { ActingSets base.now acting.now }
    ensures kind { kind_number result.kind ≡ 3 }
    ensures firsts { result.firsts ≡ record_count users (table_of base.now users) }
    ensures rows { Holders base.now result.rows }
{
    let x = base.part(Table::Exclusions);
    Conflicts::of(Kind::Holder, base.user_count(), |u| holds_row(acting[u], x))
}

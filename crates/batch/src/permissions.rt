// The weights and clauses of the permissions asked for: refusals 16 and 17.
ghost use Rattle.std.specs.Prelude.{◌≡◌, ℕ, List, [], true, ◌+◌, ◌*◌, ◌^◌, ◌≤◌, ◌<◌, cond, length, get_or, eqb};
ghost use Rattle.folds.specs.Sets.{in_set, set_below};
ghost use Rattle.reader.specs.Tables.{clauses, permission_count, record_count, table_of};
ghost use Rattle.reader.specs.Fields.{clause_permission};
ghost use Rattle.reader.specs.Rules.{refusal_of};
ghost use Rattle.weights.specs.declared.Context.{Context};
ghost use Rattle.weights.specs.Setting.{rules_of, FixedBy};
ghost use Rattle.batch.specs.Asked.{clauses_asked, WeightsOf, OwnOf, MasksOf};

use masks::clauses;
use masks::table::GroupClauses;
use reader::{Base, Refusal, Table, bytes};
use seek::Masks;
use std::array;
use weights::{Fixed, sets};

// For each permission asked for: the roles' weights, at place 8 * permission + role; the set of the roles without
// weight; its clauses, bit i for clause i. And of the clauses of all these permissions, those that each number of
// entries, each sum and each set of roles meets. The masks are lent: built within they would be copied.
#[derive(Drop)]
pub struct Permissions<'a> {
    pub weights: [u8; 128],
    pub weightless: [u8; 16],
    pub own: [u64; 16],
    pub entries: [u64; 7],
    pub masks: &'a Masks,
    pub ghost light: { (i : ℕ) → i < 128 → get_or weights i 0 ≤ 40 },
}

// The roles' weights for each permission asked for.
fn weights_of(base: &Base<'_>, s: Fixed, asked: u32) -> [u8; 128]
    requires { (refusal_of base.now ≡ 0) × FixedBy base.now s × (rules_of s ≡ []) }
    ensures { WeightsOf base.now s.at asked result }
{
    let chosen = weights::choose(base, s);
    let mut weights = [0; 128];
    for permission in 0..base.permission_count() {
        if sets::in_set(asked, permission) {
            let at = 8 * bytes::wide(permission);
            weights[at..at + 8].copy_from_slice(&chosen.role_weights(s.juniors, permission));
        }
    }
    weights
}

// The clauses of each permission asked for.
fn own_of(k: &[u8], permissions: u8, asked: u32) -> [u64; 16]
    requires { (length k.now ≤ 1024) × (permissions ≤ 16) }
    ensures { OwnOf k.now permissions asked result }
{
    let mut own = [0; 16];
    for permission in 0..permissions {
        if sets::in_set(asked, permission) {
            own[permission as usize] = clauses::own_clauses(k, permission);
        }
    }
    own
}

// The clauses of all permissions asked for.
fn clauses_asked(k: &[u8], asked: u32) -> u64
    requires { (length k.now ≤ 1024)
        × ((i : ℕ) → i < record_count clauses k.now → clause_permission k.now i < 32) }
    ensures { (result ≡ clauses_asked k.now asked) × (result < 2 ^ record_count clauses k.now) }
{
    (0..k.len() / 16).fold(
        0,
        |all, i| if sets::in_set(asked, k[16 * i]) {
            all | sets::wide_bit(i)
        } else {
            all
        },
    )
}

// The set of the roles without weight, of the eight weights from a place on.
fn weightless_from(weights: &[u8; 128], at: usize) -> u8
    requires { at + 8 ≤ 128 }
    ensures { result ≡ set_below 8 (λ r. eqb (get_or weights.now (at + r) 0) 0) }
{
    (0..8).fold(
        0,
        |set, r| if weights[at + r] == 0 {
            set | sets::role_bit(r as u8)
        } else {
            set
        },
    )
}

// Writes which clauses of the permissions asked for each sum and each set of roles meets; gives those that each number
// of entries meets. Nobody stands in front (0), and each role counts as one with weight (1): 16 is asked before.
fn masks_of(base: &Base<'_>, asked: u32, masks: &mut Masks) -> [u64; 7]
    ensures { MasksOf base.now asked result masks.new.sums masks.new.sets }
{
    let k = base.part(Table::Clauses);
    let roles = base.role_count();
    let all = clauses_asked(k, asked);
    let mut counts = [0u8; 256];
    masks::sets::role_counts(&mut counts, masks::sets::sets_below(roles));
    let met = clauses::clauses_met(&GroupClauses::of(k), all, &mut masks.sums);
    masks::sets::sets_for(all, &met, [1; 8], 0, roles, &counts, &mut masks.sets);
    met.entries
}

impl<'a> Permissions<'a> {
    ghost use Rattle.std.specs.Prelude.{◌&&◌};
    ghost use Rattle.folds.specs.Below.{any_below};
    ghost use Rattle.weights.specs.Weights.{weight};
    ghost use Rattle.decision.specs.Conditions.{permission_holds};
    ghost use Rattle.reader.specs.Tables.{role_count};
    ghost use Rattle.reader.specs.Refusals.{number_of};
    ghost use Rattle.batch.specs.Steps.{PermissionsOf};

    // Inner: those of an accepted base in a setting without a list.
    pub fn of(base: &Base<'_>, s: Fixed, asked: u32, masks: &'a mut Masks) -> Permissions<'a>
        requires { FixedBy base.now s × (rules_of s ≡ []) }
        ensures { PermissionsOf base.now s.at asked result }
    {
        let k = base.part(Table::Clauses);
        let weights = weights_of(base, s, asked);
        Permissions {
            weights,
            weightless: array::from_fn(|p| weightless_from(&weights, 8 * p)),
            own: own_of(k, base.permission_count(), asked),
            entries: masks_of(base, asked, masks),
            masks,
        }
    }

    // Inner: the roles' weights for a permission.
    pub fn role_weights(&self, permission: u8) -> [u8; 8]
        requires { permission < 16 }
        ensures each { (r : ℕ) → r < 8 → get_or result r 0 ≡ get_or self.now.weights (8 * permission + r) 0 }
        ensures light { (r : ℕ) → r < 8 → get_or result r 0 ≤ 40 }
    {
        let at = 8 * bytes::wide(permission);
        let mut w = [0; 8];
        w.copy_from_slice(&self.weights[at..at + 8]);
        w
    }

    // The permission's condition: one of its clauses is met by the number of entries, the sum and the set of roles.
    fn holds(&self, permission: u8, entries: usize, sum: u32, roles: u8) -> bool
        requires { (permission < 16) × (entries ≤ 6) × (sum ≤ 240) }
        ensures { (b : List ℕ) (at : Context) (asked : ℕ) → PermissionsOf b at asked self.now →
            permission < permission_count b → in_set asked permission ≡ true → roles < 2 ^ role_count b →
            result ≡ permission_holds (table_of b clauses) permission entries sum roles }
    {
        let met = self.masks.sums[sum as usize] & self.masks.sets[bytes::wide(roles)];
        self.own[permission as usize] & self.entries[entries] & met != 0
    }

    // Inner: refusals 16 and 17 of a group with so many entries, this sum of weights and this set of roles.
    pub fn weighed_refusal(
        &self,
        permission: u8,
        entries: usize,
        sum: u32,
        roles: u8,
    ) -> Result<(), Refusal>
        requires { (permission < 16) × (entries ≤ 6) × (sum ≤ 240) }
        ensures { (b : List ℕ) (at : Context) (asked : ℕ) → PermissionsOf b at asked self.now →
            permission < permission_count b → in_set asked permission ≡ true → roles < 2 ^ role_count b →
            number_of result ≡ cond (any_below 8 (λ r. in_set roles r && eqb (weight [] b at r permission) 0)) 16
            (cond (permission_holds (table_of b clauses) permission entries sum roles) 0 17) }
    {
        if self.weightless[permission as usize] & roles != 0 {
            return Err(Refusal::Weightless);
        }
        if self.holds(permission, entries, sum, roles) {
            return Ok(());
        }
        Err(Refusal::Unmet)
    }
}

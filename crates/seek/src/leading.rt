// The fewest entries beside one in front, over the roles that it may be in.
ghost use Rattle.std.specs.Prelude.{◌≡◌, List, ℕ, suc, ◌+◌, ◌*◌, ◌^◌, ◌≤◌, ◌<◌, get_or, length, drop};
ghost use Rattle.multisets.specs.Ranks.{first};
ghost use Rattle.multisets.specs.Ends.{NextEnds};
ghost use Rattle.multisets.specs.Levels.{Summed};
ghost use Rattle.seek.specs.Search.{by_masks, Ready, TriedWith};
ghost use Rattle.seek.specs.Level.{Looking};
ghost use Rattle.seek.specs.Led.{may_lead, met_led, TriedLed, FewestLed};

use crate::condition::Condition;
use crate::led::Led;
use crate::{Found, Masks, look_through};
use multisets::levels::LevelTables;
use multisets::{Weighing, back};

// The entry in front may be in role r, one of `own`, and has weight there.
fn leads(own: u8, w: [u8; 8], r: u8) -> bool
    requires { r < 8 }
    ensures { result ≡ may_lead own w r }
{
    ((own >> r) % 2 == 1) & (0 < w[usize::from(r)])
}

// A role in front, and a place of the multisets found.
#[derive(Clone, Copy)]
struct Place {
    role: u8,
    at: usize,
}

// The set of role r alone.
fn bit(r: u8) -> u8
    requires { r < 8 }
    ensures { result ≡ 2 ^ r }
{
    1u8 << r
}

// The masks of the sums from one on.
fn masks_from(sums: &[u64; 256], from: u8) -> &[u64]
    ensures { result.now ≡ drop from sums.now }
{
    &sums[usize::from(from)..]
}

// A place of the multisets of n roles, of a level that is made, that beside role r in front meets the row.
fn look_beside<const ROWS: usize, const PLACES: usize>(
    tables: &LevelTables<ROWS, PLACES>,
    masks: &Masks,
    row: u64,
    n: usize,
    weighing: Weighing,
    r: u8,
) -> Option<usize>
    requires { (n ≤ 5) × (r < 8) × (0 < get_or weighing.w r 0) × (weighing.placed ≡ 0)
        × Looking tables.now.users n weighing tables.now.known tables.now.sums 0 masks.now.sums masks.now.sets
        × (length masks.now.sums ≡ 256) }
    ensures { (sets : List ℕ) → NextEnds sets tables.now.users.nexts →
        TriedWith sets weighing.w 0 tables.now.users.d (met_led weighing.w r row masks.now.sums masks.now.sets)
        n result tables.now.reached.ends tables.now.reached.from }
{
    let condition = Condition {
        row,
        masks,
        above: masks_from(&masks.sums, weighing.w[usize::from(r)]),
        front: bit(r),
    };
    look_through::<ROWS, PLACES, 1>(tables, condition, n, weighing)
}

// The first of the roles in `own` with weight with such a place.
fn look_led<const ROWS: usize, const PLACES: usize>(
    tables: &LevelTables<ROWS, PLACES>,
    masks: &Masks,
    row: u64,
    n: usize,
    weighing: Weighing,
    own: u8,
) -> Option<Place>
    requires { (n ≤ 5) × (weighing.placed ≡ 0)
        × Looking tables.now.users n weighing tables.now.known tables.now.sums 0 masks.now.sums masks.now.sets
        × (length masks.now.sums ≡ 256) }
    ensures { (sets : List ℕ) → NextEnds sets tables.now.users.nexts →
        TriedLed sets weighing.w own tables.now.users.d row masks.now.sums masks.now.sets n result
        tables.now.reached.ends tables.now.reached.from }
{
    for role in 0..8u8 {
        if leads(own, weighing.w, role) {
            if let Some(at) = look_beside(tables, masks, row, n, weighing, role) {
                return Some(Place { role, at });
            }
        }
    }
    None
}

// Such a role and place; the sums are made, and the level if it isn't yet.
fn try_led<const ROWS: usize, const PLACES: usize>(
    tables: &mut LevelTables<ROWS, PLACES>,
    masks: &Masks,
    row: u64,
    n: usize,
    weighing: Weighing,
    own: u8,
) -> Option<Place>
    requires { (n ≤ 5) × (weighing.placed ≡ 0)
        × Ready tables.old.users.d weighing.end weighing.w tables.old.users.nexts masks.now.sums masks.now.sets
        × Summed tables.old.users.d weighing tables.old.sums (first tables.old.users.d n) }
    ensures { (tables.new.users ≡ tables.old.users)
        × Summed tables.old.users.d weighing tables.new.sums (first tables.old.users.d (suc n))
        × ((sets : List ℕ) → NextEnds sets tables.old.users.nexts →
        TriedLed sets weighing.w own tables.old.users.d row masks.now.sums masks.now.sets n result
        tables.new.reached.ends tables.new.reached.from) }
{
    tables.sum_level(n, weighing);
    if row == 0 {
        return None;
    }
    tables.reach(n);
    look_led(tables, masks, row, n, weighing, own)
}

// Inner: the fewest entries beside one in front, whose role is in `own` and has weight, that with it are at most `last`
// and meet the condition told by the masks; among the tables' roles.
pub fn search<const ROWS: usize, const PLACES: usize>(
    tables: &mut LevelTables<ROWS, PLACES>,
    masks: &Masks,
    rows: &[u64; 7],
    last: usize,
    weighing: Weighing,
    own: u8,
) -> Option<Led>
    requires { (last ≤ 6) × (weighing.placed ≡ 0)
        × Ready tables.old.users.d weighing.end weighing.w tables.old.users.nexts masks.now.sums masks.now.sets }
    ensures { (tables.new.users ≡ tables.old.users)
        × ((sets : List ℕ) → NextEnds sets tables.old.users.nexts →
        FewestLed sets weighing.w own (by_masks rows.now masks.now.sums masks.now.sets) last result) }
{
    // By level, and no bound is needed: the first that is found is the fewest.
    for n in 0..last {
        if let Some(place) = try_led(tables, masks, rows[n + 1], n, weighing, own) {
            let group = back::group(&tables.reached.ends, &tables.reached.from, n, place.at);
            return Some(Led {
                role: place.role,
                beside: Found { n, group },
            });
        }
    }
    None
}

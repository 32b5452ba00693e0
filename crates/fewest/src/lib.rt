// The fewest entries that meet a permission's condition, among any users and from any entries placed before. It knows
// no base.
#![tactic(auto)]

ghost use Rattle.std.specs.Prelude.{◌≡◌, List, ℕ, ◌-◌};
ghost use Rattle.decision.specs.Conditions.{permission_holds};
ghost use Rattle.multisets.specs.Ends.{NextEnds};
ghost use Rattle.seek.specs.Answer.{AnsweredWith};
ghost use Rattle.seek.specs.Led.{FewestLed};
ghost use Rattle.fewest.specs.Search.{nobody, holds_with, LastRow, Seeking};

use masks::Placed;
use multisets::Weighing;
use multisets::levels::LevelTables;
use reader::bytes;
use seek::led::Led;
use seek::{Found, Masks};

mod weighing;

// The last row that isn't empty.
fn last_row(rows: &[u64; 7]) -> Option<usize>
    ensures { LastRow rows.now result }
{
    rows.iter().rposition(|row| *row != 0)
}

// Inner: the fewest entries more that, with those placed at most six, meet the permission's condition with them, by a
// table K that passed the check; among the tables' users and roles. `counts` are the sets' numbers of roles; the masks
// are written anew.
pub fn fewest<const ROWS: usize, const PLACES: usize>(
    k: &[u8],
    permission: u8,
    w: [u8; 8],
    start: Placed,
    counts: &[u8; 256],
    tables: &mut LevelTables<ROWS, PLACES>,
    masks: &mut Masks,
) -> Option<Found>
    requires { Seeking k.now w start tables.old.users.d counts.now
        × ((users : List ℕ) × NextEnds users tables.old.users.nexts) }
    ensures { (tables.new.users ≡ tables.old.users)
        × ((sets : List ℕ) → NextEnds sets tables.old.users.nexts →
        AnsweredWith sets w start.sum (holds_with k.now permission start) (6 - start.count) result) }
{
    let weighed = weighing::weighed(w);
    let own = masks::clauses::own_clauses(k, permission);
    if own == 0 || weighed.heavy + start.count == 0 {
        return None;
    }
    let rows = masks::masks_for(k, own, w, weighed, start, counts, masks);
    let last = last_row(&rows)?;
    let weighing = Weighing {
        w,
        end: bytes::wide(weighed.end),
        placed: start.sum as u8,
    };
    seek::search(tables, masks, &rows, last, weighing)
}

// Inner: the fewest entries beside one whose role is in `own` and has weight, that with it are at most six and meet the
// permission's condition; by what `fewest` is handed, with nobody placed. The masks serve each role in front. Kept
// out of line: taken in, a typical shop's report takes 7 % more instructions.
#[inline(never)]
pub fn fewest_led<const ROWS: usize, const PLACES: usize>(
    k: &[u8],
    permission: u8,
    w: [u8; 8],
    own: u8,
    counts: &[u8; 256],
    tables: &mut LevelTables<ROWS, PLACES>,
    masks: &mut Masks,
) -> Option<Led>
    requires { Seeking k.now w nobody tables.old.users.d counts.now
        × ((users : List ℕ) × NextEnds users tables.old.users.nexts) }
    ensures { (tables.new.users ≡ tables.old.users)
        × ((sets : List ℕ) → NextEnds sets tables.old.users.nexts →
        FewestLed sets w own (permission_holds k.now permission) 6 result) }
{
    let weighed = weighing::weighed(w);
    let clauses = masks::clauses::own_clauses(k, permission);
    if clauses == 0 || weighed.heavy == 0 {
        return None;
    }
    let start = Placed {
        count: 0,
        sum: 0,
        roles: 0,
    };
    let rows = masks::masks_for(k, clauses, w, weighed, start, counts, masks);
    let last = last_row(&rows)?;
    let weighing = Weighing {
        w,
        end: bytes::wide(weighed.end),
        placed: 0,
    };
    seek::leading::search(tables, masks, &rows, last, weighing, own)
}

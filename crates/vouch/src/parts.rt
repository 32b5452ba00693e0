// The 13 bytes of each permission, of the groups that a requester leads.
ghost use Rattle.std.specs.Prelude.{List, [], ℕ, ◌≡◌, ◌∷◌, ◌+◌, ◌*◌, ◌≤◌, ◌<◌, length, take, replicate};
ghost use Rattle.std.specs.Prelude.{IfSome, MatchOption};
ghost use Rattle.reader.specs.Tables.{permission_count, role_count, user_count};
ghost use Rattle.multisets.specs.Ranks.{first};
ghost use Rattle.weights.specs.declared.Context.{Context};
ghost use Rattle.report.specs.Parts.{SetsInDate, Settled, GroundsOf};
ghost use Rattle.weights.specs.Setting.{rules_of};
ghost use Rattle.vouch.specs.Decision.{Lent};
ghost use Rattle.vouch.specs.Parts.{AskedFor, Among, SearchingLed, FilledFor};

use crate::beside;
use multisets::ends::{self, Nexts};
use multisets::levels::LevelTables;
use reader::{Base, Table, bytes};
use report::parts::{self, Grounds, Parts, sets_in_date};
use seek::Masks;
use seek::led::Led;
use weights::Fixed;

// Whom a report is for: the requester, for each user in date the set of the roles in which the user may act, and for
// each permission the set of the users who vouch for the requester.
#[derive(Clone, Copy)]
pub struct Asked {
    pub requester: u8,
    pub sets: [u8; 24],
    pub vouching: [u32; 16],
}

// The 13 bytes of the requester's entry and of the fewest beside it, or of no group.
fn part_of(requester: u8, led: Option<Led>) -> [u8; 13]
    requires { IfSome led (λ led. length led.beside.group ≡ 12) }
    ensures { MatchOption led (result ≡ 0 ∷ replicate 12 255)
        (λ led. result ≡ (led.beside.n + 1) ∷ requester ∷ led.role ∷ take 10 led.beside.group) }
{
    let mut part = [255u8; 13];
    match led {
        None => part[0] = 0,
        Some(led) => {
            part[0] = led.beside.n as u8 + 1;
            part[1] = requester;
            part[2] = led.role;
            part[3..].copy_from_slice(&led.beside.group[..10]);
        }
    }
    part
}

// Inner: whom a report is for, by a register and a threshold that aren't refused.
pub fn asked_for(
    base: &Base<'_>,
    fixed: Fixed,
    register: &[u8],
    threshold: u32,
    requester: u8,
) -> Asked
    requires { Settled base.now fixed × Lent register.now threshold base.now × (requester < user_count base.now) }
    ensures { (result.requester ≡ requester) × AskedFor register.now threshold base.now fixed.at result }
{
    Asked {
        requester,
        sets: sets_in_date(base, fixed),
        vouching: beside::users_vouching(register, requester, threshold, fixed.at.date),
    }
}

// The next ends of those of the users who vouch who may stand beside the requester.
fn nexts_among(base: &Base<'_>, asked: &Asked, vouching: u32) -> Nexts
    requires { (at : Context) × SetsInDate base.now at asked.now.sets }
    ensures { Among asked.now vouching result }
{
    let others = beside::others(&asked.sets, vouching, asked.requester);
    ends::next_ends(&others, base.user_count())
}

// Turns the tables, made for those who vouch in `among`, to those who vouch in `vouching`; where the two sets are equal
// nothing is made anew.
fn turn_to<const ROWS: usize, const PLACES: usize>(
    base: &Base<'_>,
    asked: &Asked,
    vouching: u32,
    among: u32,
    tables: &mut LevelTables<ROWS, PLACES>,
)
    requires { ((at : Context) × SetsInDate base.now at asked.now.sets) × Among asked.now among tables.old.users.nexts }
    ensures { Among asked.now vouching tables.new.users.nexts × (tables.new.users.d ≡ tables.old.users.d) }
{
    if vouching != among {
        tables.renew(nexts_among(base, asked, vouching));
    }
}

// The parts by a search with the requester's entry placed. Tables and masks are lent: built within it they would be
// copied into it.
#[derive(Drop)]
struct LedSearch<'a, const ROWS: usize, const PLACES: usize> {
    base: &'a Base<'a>,
    grounds: &'a Grounds,
    asked: &'a Asked,
    tables: &'a mut LevelTables<ROWS, PLACES>,
    // the users who vouch, for whom the tables are
    among: u32,
    masks: &'a mut Masks,
    // Lent on, the tables must be of known size.
    ghost sizes: { (ROWS ≤ 3960) × (PLACES ≤ 3003) },
}

impl<const ROWS: usize, const PLACES: usize> Parts for LedSearch<'_, ROWS, PLACES> {
    ghost ready = { λ from decision P s.
        SearchingLed from decision P s.base.now s.grounds.now s.asked.now s.among s.tables.now.users };

    fn part(&mut self, permission: u8) -> [u8; 13] {
        let s = self.grounds;
        let asked = self.asked;
        let vouching = asked.vouching[usize::from(permission)];
        turn_to(self.base, asked, vouching, self.among, self.tables);
        self.among = vouching;
        let w = s.chosen.role_weights(s.fixed.juniors, permission);
        let own = asked.sets[usize::from(asked.requester)];
        let k = self.base.part(Table::Clauses);
        let led = fewest::fewest_led(k, permission, w, own, &s.counts, self.tables, self.masks);
        part_of(asked.requester, led)
    }
}

// Writes the parts by a search with tables of one size.
fn fill_sized<const ROWS: usize, const PLACES: usize>(
    base: &Base<'_>,
    grounds: &Grounds,
    asked: &Asked,
    out: &mut [u8],
) -> u32
    requires { GroundsOf base.now grounds.now × (rules_of grounds.now.fixed ≡ [])
        × ((register : List ℕ) × (threshold : ℕ) × AskedFor register threshold base.now grounds.now.fixed.at asked.now)
        × (8 * first (role_count base.now) 5 ≤ ROWS) × (first (role_count base.now) 7 ≤ PLACES)
        × (ROWS ≤ 3960) × (PLACES ≤ 3003) × (13 * permission_count base.now ≤ length out.old) }
    ensures { FilledFor base.now grounds.now.fixed.at asked.now out.old out.new result }
{
    let among = asked.vouching[0];
    let nexts = nexts_among(base, asked, among);
    let mut tables = LevelTables::<ROWS, PLACES>::new(bytes::wide(base.role_count()), nexts);
    // As in `report::parts::fill_sized`: filled unlike they are cleared apart.
    let mut masks = Masks {
        sums: [0; 256],
        sets: [u64::MAX; 256],
    };
    let mut search = LedSearch {
        base,
        grounds,
        asked,
        tables: &mut tables,
        among,
        masks: &mut masks,
    };
    parts::fill(&mut search, base.permission_count(), out)
}

// Inner: writes each permission's part for a requester, by a setting without a list; the number of permissions that
// have a group. Tables of three sizes, those of `report::parts::fill_by_setting`.
pub fn fill_for(base: &Base<'_>, fixed: Fixed, asked: &Asked, out: &mut [u8]) -> u32
    requires { Settled base.now fixed × (rules_of fixed ≡ [])
        × ((register : List ℕ) × (threshold : ℕ) × AskedFor register threshold base.now fixed.at asked.now)
        × (13 * permission_count base.now ≤ length out.old) }
    ensures { FilledFor base.now fixed.at asked.now out.old out.new result }
{
    let grounds = parts::grounds_of(base, fixed);
    match base.role_count() {
        0..=3 => fill_sized::<280, 84>(base, &grounds, asked, out),
        4 | 5 => fill_sized::<1008, 462>(base, &grounds, asked, out),
        _ => fill_sized::<3960, 3003>(base, &grounds, asked, out),
    }
}

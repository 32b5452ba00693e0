// The 13 bytes of each permission.
ghost use Rattle.std.specs.Prelude.{ℕ, ◌≡◌, ◌∷◌, ◌*◌, ◌≤◌, ◌<◌, length, replicate, IfSome, MatchOption};
ghost use Rattle.reader.specs.Tables.{permission_count, role_count};
ghost use Rattle.multisets.specs.Ranks.{first};
ghost use Rattle.weights.specs.Setting.{ActingSets};
ghost use Rattle.report.specs.Smallest.{Deciding};
ghost use Rattle.report.specs.Parts.{SetsInDate, PartFor, FilledBy, Settled, decided, GroundsOf, UsersOf, Searching};

use masks::Placed;
use multisets::ends::{self, Nexts};
use multisets::levels::LevelTables;
use reader::users::Days;
use reader::{Base, Table, bytes};
use seek::{Found, Masks};
use weights::acting::Acting;
use weights::{Chosen, Context, Fixed};

// Leaves the users whose days don't include the date without a role.
fn keep_in_date(base: &Base<'_>, at: Context, sets: &mut [u8; 24])
    requires { ActingSets base.now sets.old }
    ensures { SetsInDate base.now at sets.new }
{
    let users = base.part(Table::Users);
    for (u, set) in sets[..base.user_count()].iter_mut().enumerate() {
        if Days::of(users, u).leave_out(at.date) {
            *set = 0;
        }
    }
}

// Inner: for each user in date the set of the roles in which the user may act. Apart from `fill_by_setting`, or the
// compiler clears the large tables twice.
pub fn sets_in_date(base: &Base<'_>, fixed: Fixed) -> [u8; 24]
    requires { Settled base.now fixed }
    ensures { SetsInDate base.now fixed.at result }
{
    let mut sets = Acting::by(base, fixed.juniors).sets();
    keep_in_date(base, fixed.at, &mut sets);
    sets
}

// Inner: what a report goes by for every permission: the setting, the weights that count, and the sets' numbers of
// roles. Base and setting stay two values, as beside `Fixed`.
#[derive(Clone, Copy)]
pub struct Grounds {
    pub fixed: Fixed,
    pub chosen: Chosen,
    pub counts: [u8; 256],
}

// Inner: that of an accepted base in a context in range.
pub fn grounds_of(base: &Base<'_>, fixed: Fixed) -> Grounds
    requires { Settled base.now fixed }
    ensures { (result.fixed ≡ fixed) × GroundsOf base.now result }
{
    let mut counts = [0u8; 256];
    let roles = base.role_count();
    masks::sets::role_counts(&mut counts, masks::sets::sets_below(roles));
    Grounds {
        fixed,
        chosen: weights::choose(base, fixed),
        counts,
    }
}

// The 13 bytes of the approvers found, or of none.
fn part_of(found: Option<Found>) -> [u8; 13]
    requires { IfSome found (λ f. (f.n ≤ 6) × (length f.group ≡ 12)) }
    ensures { MatchOption found (result ≡ 0 ∷ replicate 12 255) (λ f. result ≡ f.n ∷ f.group) }
{
    let mut part = [255u8; 13];
    match found {
        None => part[0] = 0,
        Some(approvers) => {
            part[0] = approvers.n as u8;
            part[1..].copy_from_slice(&approvers.group);
        }
    }
    part
}

// Inner: what works out the 13 bytes of one permission after the other.
pub trait Parts {
    // Ready to work out those of P permissions by a decision, of groups that stand by rising user from an entry on.
    ghost ready: { ℕ → Deciding → ℕ → Self → Type 0 };

    // Inner: those of a permission.
    fn part(&mut self, permission: u8) -> [u8; 13]
        requires { (from : ℕ) × (decision : Deciding) × (P : ℕ) × (permission < P) × ready from decision P self.old }
        ensures { (from : ℕ) (decision : Deciding) (P : ℕ) → permission < P → ready from decision P self.old →
            PartFor from decision permission result × ready from decision P self.new };
}

// Inner: writes each permission's part; the number of permissions that have a group.
pub fn fill<T: Parts>(parts: &mut T, permissions: u8, out: &mut [u8]) -> u32
    requires { ((from : ℕ) × (decision : Deciding) × T.ready from decision permissions parts.old)
        × (13 * permissions ≤ length out.old) }
    ensures { (from : ℕ) (decision : Deciding) → T.ready from decision permissions parts.old →
        FilledBy from decision permissions out.old out.new result }
{
    let mut count: u32 = 0;
    // A loop by number and no chain: document 01 asks for each permission's 13 bytes lent on as a mutable part starting
    // at 13 times its number; and what an adapter's closure returns that changes `parts` no proof of this kit knows.
    for p in 0..permissions {
        let part = parts.part(p);
        let at = 13 * bytes::wide(p);
        out[at..at + 13].copy_from_slice(&part);
        count += u32::from(0 < part[0]);
    }
    count
}

// The parts by a search among the base's users and roles. Tables and masks are lent: built within it they would be
// copied into it.
#[derive(Drop)]
struct Search<'a, const ROWS: usize, const PLACES: usize> {
    base: &'a Base<'a>,
    grounds: &'a Grounds,
    tables: &'a mut LevelTables<ROWS, PLACES>,
    masks: &'a mut Masks,
    // Lent on, the tables must be of known size.
    ghost sizes: { (ROWS ≤ 3960) × (PLACES ≤ 3003) },
}

impl<const ROWS: usize, const PLACES: usize> Parts for Search<'_, ROWS, PLACES> {
    ghost ready = { λ from decision P s. Searching from decision P s.base.now s.grounds.now s.tables.now.users };

    fn part(&mut self, permission: u8) -> [u8; 13] {
        let s = self.grounds;
        let w = s.chosen.role_weights(s.fixed.juniors, permission);
        let k = self.base.part(Table::Clauses);
        let nobody = Placed {
            count: 0,
            sum: 0,
            roles: 0,
        };
        part_of(fewest::fewest(k, permission, w, nobody, &s.counts, self.tables, self.masks))
    }
}

// Writes the parts by a search with tables of one size.
fn fill_sized<const ROWS: usize, const PLACES: usize>(
    base: &Base<'_>,
    grounds: &Grounds,
    nexts: Nexts,
    out: &mut [u8],
) -> u32
    requires { GroundsOf base.now grounds.now × UsersOf base.now grounds.now.fixed.at nexts
        × (8 * first (role_count base.now) 5 ≤ ROWS) × (first (role_count base.now) 7 ≤ PLACES)
        × (ROWS ≤ 3960) × (PLACES ≤ 3003)
        × (13 * permission_count base.now ≤ length out.old) }
    ensures { FilledBy 0 (decided base.now grounds.now.fixed) (permission_count base.now) out.old out.new result }
{
    let mut tables = LevelTables::<ROWS, PLACES>::new(bytes::wide(base.role_count()), nexts);
    // Each is written before it is read; filled unlike they are cleared apart, by vectors and not byte by byte.
    let mut masks = Masks {
        sums: [0; 256],
        sets: [u64::MAX; 256],
    };
    let mut search = Search {
        base,
        grounds,
        tables: &mut tables,
        masks: &mut masks,
    };
    fill(&mut search, base.permission_count(), out)
}

// Inner: writes each permission's part by a setting; the number of permissions that have a group. Fewer roles take
// smaller tables: the rows of multisets of at most four of them, and the multisets of at most six.
pub fn fill_by_setting(base: &Base<'_>, fixed: Fixed, out: &mut [u8]) -> u32
    requires { Settled base.now fixed × (13 * permission_count base.now ≤ length out.old) }
    ensures { FilledBy 0 (decided base.now fixed) (permission_count base.now) out.old out.new result }
{
    let grounds = grounds_of(base, fixed);
    let sets = sets_in_date(base, fixed);
    let nexts = ends::next_ends(&sets, base.user_count());
    match base.role_count() {
        0..=3 => fill_sized::<280, 84>(base, &grounds, nexts, out),
        4 | 5 => fill_sized::<1008, 462>(base, &grounds, nexts, out),
        _ => fill_sized::<3960, 3003>(base, &grounds, nexts, out),
    }
}

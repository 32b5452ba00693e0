// How much one weight can shift: the bound on what a changed weight of one policy does to a group's sum of weights.
#![tactic(auto)]

ghost use Rattle.std.specs.Prelude.{◌≡◌, ◌*◌, ◌≤◌, ◌<◌};
ghost use Rattle.reader.specs.Tables.{policies, record_count};
ghost use Rattle.reader.specs.Fields.{policy_role, policy_weight};
ghost use Rattle.reader.specs.Refusals.{answer_from};
ghost use Rattle.shift.specs.Shift.{distance, change_refused, bound_answer};
ghost use Rattle.shift.specs.Counting.{at_or_above, entries_at_or_above};

use decision::groups::Entry;
use decision::members::Members;
use reader::{Policies, Refusal, Refused};
use weights::acting::Acting;
use weights::seniority;

// Entry point: by how much, at most, the group's sum of weights shifts where the policy gets this weight; refusals 1 to
// 9, 12 to 15, then 21. A refusal carries 0. The call knows no date, and so no 24.
pub fn bound(base: &[u8], policy: u32, weight: u32, group: &[u8]) -> Result<u32, Refused>
    ensures { answer_from result ≡ bound_answer base.now policy weight group.now }
{
    let base = reader::accept(base)?;
    let acting = Acting::of(&base);
    let members = Members::of(&acting, group)?;
    let a = base.policies();
    if change_refused(a.count(), policy, weight) {
        return Err(Refusal::Change.into());
    }
    Ok(bound_of(
        &a,
        acting.juniors(),
        policy as usize,
        weight as u8,
        &members,
    ))
}

// Refusal 21, with so many policies.
fn change_refused(count: usize, policy: u32, weight: u32) -> bool
    ensures { result ≡ change_refused count policy weight }
{
    count <= policy as usize || !(1..=5).contains(&weight)
}

// The bound, by the policies, the juniors of each role and who stands in the group.
fn bound_of(
    a: &Policies<'_>,
    juniors: [u8; 8],
    policy: usize,
    weight: u8,
    members: &Members<'_>,
) -> u32
    requires { policy < record_count policies a.now }
    ensures { result ≡ distance (policy_weight a.now policy) weight
        * entries_at_or_above juniors (policy_role a.now policy) members.now }
{
    let difference = a.weight(policy).abs_diff(weight) as u32;
    difference * entries_at_or_above(juniors, a.role(policy), members)
}

// How many entries act in this role or in a senior of it.
fn entries_at_or_above(juniors: [u8; 8], role: u8, members: &Members<'_>) -> u32
    requires { role < 8 }
    ensures { (result ≡ entries_at_or_above juniors role members.now) × (result ≤ 6) }
{
    let group = members.bytes();
    (0..group.len() / 2)
        .filter(|&k| is_at_or_above(juniors, role, Entry::of(group, k).role))
        .count() as u32
}

// Role r is this role or a senior of it.
fn is_at_or_above(juniors: [u8; 8], role: u8, r: u8) -> bool
    requires { (role < 8) × (r < 8) }
    ensures { result ≡ at_or_above juniors role r }
{
    (r == role) | seniority::is_senior(juniors, r, role)
}

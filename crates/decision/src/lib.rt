// The decision: whether a group is granted a permission, by the first refusal of 1 to 15, 24, 16 and 17, and of 22
// where a list is lent, that applies.
#![tactic(auto)]

ghost use Rattle.std.specs.Prelude.{◌≡◌, ◌<◌, IfOk};
ghost use Rattle.reader.specs.Tables.{permission_count};
ghost use Rattle.reader.specs.Refusals.{number_of};
ghost use Rattle.weights.specs.Setting.{rules_of, FixedBy};
ghost use Rattle.decision.specs.Decision.{present_of, weighed_of, group_decision, asking, decision_of, decision_lent};

use reader::{Base, Refusal, Table};
use weights::acting::Acting;
use weights::{Context, Fixed};

pub mod conditions;
pub mod groups;
pub mod members;

use conditions::Attributes;
use members::Members;

// Entry point: whether the group is granted; else the first refusal of 1 to 15, 24, 16 and 17 that applies. `decide_by`
// differs in which refusals come first; what follows is one function.
pub fn decide(base: &[u8], permission: u32, at: Context, group: &[u8]) -> Result<(), Refusal>
    ensures { number_of result ≡ decision_of base.now at permission group.now }
{
    let base = reader::accept(base)?;
    asking_refusal(&base, permission, at)?;
    let s = weights::setting(&base, at);
    decide_checked(&base, permission as u8, s, group)
}

// Entry point: the same by a resolution list; the first refusal of 1 to 9, 22 of the list, 10 to 15, 24, 16 and 17 that
// applies.
pub fn decide_by(
    base: &[u8],
    permission: u32,
    at: Context,
    list: &[u8],
    group: &[u8],
) -> Result<(), Refusal>
    ensures { number_of result ≡ decision_lent list.now base.now at permission group.now }
{
    let base = resolution::accept(base, list)?;
    asking_refusal(&base, permission, at)?;
    let s = weights::setting_by(&base, at, list);
    decide_checked(&base, permission as u8, s, group)
}

// Inner: refusals 10 and 11 for an accepted base.
pub fn asking_refusal(base: &Base<'_>, permission: u32, at: Context) -> Result<(), Refusal>
    ensures { number_of result ≡ asking base.now at permission 0 }
{
    if u32::from(base.permission_count()) <= permission {
        return Err(Refusal::Permission);
    }
    if weights::contexts::out_of_range(at) {
        return Err(Refusal::Context);
    }
    Ok(())
}

// Inner: refusals 12 to 15, 24, 16 and 17 for an accepted base, a permission that is there and a setting of that base,
// by its rules.
pub fn decide_checked(
    base: &Base<'_>,
    permission: u8,
    s: Fixed,
    group: &[u8],
) -> Result<(), Refusal>
    requires { (permission < permission_count base.now) × FixedBy base.now s }
    ensures { number_of result ≡ group_decision (rules_of s) base.now s.at permission group.now }
{
    let members = present(base, s, group)?;
    weighed_refusal(base, permission, s, &members)
}

// Inner: refusals 12 to 15 and 24 of a group, or the group as one that passed 12 to 15.
pub fn present<'a>(base: &Base<'_>, s: Fixed, group: &'a [u8]) -> Result<Members<'a>, Refusal>
    requires { FixedBy base.now s }
    ensures number { number_of result ≡ present_of base.now s.at group.now 0 }
    ensures same { IfOk result (λ members. members ≡ group.now) }
{
    let members = Members::of(&Acting::by(base, s.juniors), group)?;
    if groups::some_out_of_date(members.bytes(), base.part(Table::Users), s.at.date) {
        return Err(Refusal::OutOfDate);
    }
    Ok(members)
}

// Inner: refusals 16 and 17 of a group that passed 12 to 15.
pub fn weighed_refusal(
    base: &Base<'_>,
    permission: u8,
    s: Fixed,
    members: &Members<'_>,
) -> Result<(), Refusal>
    requires { (permission < permission_count base.now) × FixedBy base.now s }
    ensures { number_of result ≡ weighed_of (rules_of s) base.now s.at permission members.now }
{
    let group = members.bytes();
    let k = base.part(Table::Clauses);
    let w = weights::choose(base, s).role_weights(s.juniors, permission);
    if groups::some_weightless(group, w) {
        return Err(Refusal::Weightless);
    }
    let attributes = Attributes {
        entries: groups::entry_count(group),
        sum: groups::sum_of(group, w),
        roles: groups::roles_of(group),
    };
    if conditions::permission_holds(k, permission, attributes) {
        return Ok(());
    }
    Err(Refusal::Unmet)
}

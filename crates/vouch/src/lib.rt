// Vouching: the decision and the report by a register of statements by which one approver trusts another.
#![tactic(auto)]

ghost use Rattle.std.specs.Prelude.{◌≡◌, ◌<◌, [], IfOk};
ghost use Rattle.reader.specs.Tables.{permission_count};
ghost use Rattle.reader.specs.Refusals.{number_of, answer_from};
ghost use Rattle.weights.specs.Setting.{rules_of, FixedBy};
ghost use Rattle.vouch.specs.Decision.{stated, group_vouched, decision_vouched};
ghost use Rattle.vouch.specs.Report.{fitting_for, ReportedVouched, DemandedVouched};

use reader::{Base, Refusal, Refused};
use weights::{Context, Fixed};

mod beside;
mod parts;
mod register;

use register::Terms;

// Entry point: whether the group, whose first entry is the requester, is granted, with each other entry's user vouching
// for the requester; else the first refusal of 1 to 9, 25, 27, 10 to 15, 24, 26, 16 and 17 that applies.
pub fn decide_vouched(
    base: &[u8],
    permission: u32,
    at: Context,
    register: &[u8],
    threshold: u32,
    group: &[u8],
) -> Result<(), Refusal>
    ensures { number_of result ≡ decision_vouched register.now threshold base.now at permission group.now }
{
    let base = accept(base, register, threshold)?;
    decision::asking_refusal(&base, permission, at)?;
    let s = weights::setting(&base, at);
    let terms = Terms {
        permission: permission as u8,
        threshold,
        date: at.date,
    };
    group_refusal(&base, s, register, terms, group)
}

// Entry point: writes for each permission the number k of approvers, k entries, the requester's first and the others by
// rising user, and 255 in every byte left of 13: a smallest group of those that `decide_vouched` grants and the
// requester leads; later bytes keep their contents. The count is the number of permissions with k above 0. Refusals 1
// to 9, 25, 27, 11, 13 and 19 carry 0 and write nothing. It needs about 30,000 bytes of stack.
pub fn report_vouched(
    base: &[u8],
    at: Context,
    register: &[u8],
    threshold: u32,
    requester: u32,
    out: &mut [u8],
) -> Result<u32, Refused>
    ensures promise { ReportedVouched register.now threshold base.now at requester out.old out.new
        (answer_from result) }
    ensures demand { DemandedVouched register.now threshold base.now at requester out.old out.new
        (answer_from result) }
{
    let base = accept(base, register, threshold)?;
    fitting_refusal(&base, at, requester, out.len())?;
    let s = weights::setting(&base, at);
    let asked = parts::asked_for(&base, s, register, threshold, requester as u8);
    Ok(parts::fill_for(&base, s, &asked, out))
}

// Refusals 11, 13 of the requester, and 19, for an accepted base and a buffer of n bytes.
fn fitting_refusal(base: &Base<'_>, at: Context, requester: u32, n: usize) -> Result<(), Refusal>
    ensures { number_of result ≡ fitting_for base.now at requester n }
{
    if weights::contexts::out_of_range(at) {
        return Err(Refusal::Context);
    }
    if base.user_count() <= requester as usize {
        return Err(Refusal::Unknown);
    }
    report::room_refusal(base, n)
}

// Refusals 1 to 9 of the base, 25 of the register and 27 of the threshold, or the base as one that is accepted.
fn accept<'a>(base: &'a [u8], register: &[u8], threshold: u32) -> Result<Base<'a>, Refusal>
    ensures number { number_of result ≡ stated register.now threshold base.now 0 }
    ensures same { IfOk result (λ accepted. accepted ≡ base.now) }
{
    let accepted = reader::accept(base)?;
    if register::register_refused(register, accepted.user_count(), accepted.permission_count()) {
        return Err(Refusal::Register);
    }
    if register::off_scale(threshold) {
        return Err(Refusal::Threshold);
    }
    Ok(accepted)
}

// Refusals 12 to 15, 24, 26, 16 and 17 for an accepted base, a permission that is there and a setting of that base
// without a list.
fn group_refusal(
    base: &Base<'_>,
    s: Fixed,
    register: &[u8],
    terms: Terms,
    group: &[u8],
) -> Result<(), Refusal>
    requires { (terms.permission < permission_count base.now) × FixedBy base.now s × (rules_of s ≡ [])
        × (terms.date ≡ s.at.date) }
    ensures { number_of result ≡ group_vouched register.now terms.threshold base.now s.at terms.permission group.now }
{
    let members = decision::present(base, s, group)?;
    if register::some_unvouched(register, members.bytes(), terms) {
        return Err(Refusal::Unvouched);
    }
    decision::weighed_refusal(base, terms.permission, s, &members)
}

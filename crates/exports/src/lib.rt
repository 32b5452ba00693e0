// The C interface: one function for each call that answers with a number. A slice passes as a pointer and a length.
#![tactic(auto)]

ghost use Rattle.std.specs.Prelude.{◌≡◌, length};
ghost use Rattle.reader.specs.Rules.{refusal_of};
ghost use Rattle.reader.specs.Refusals.{number_of, answer_from};
ghost use Rattle.reader.specs.Codes.{parameter_answer};
ghost use Rattle.report.specs.Report.{answer_of, answer_lent, ReportedOf, ReportedLent};
ghost use Rattle.report.specs.Demand.{Demanded, DemandedLent};
ghost use Rattle.vouch.specs.Decision.{decision_vouched};
ghost use Rattle.vouch.specs.Report.{answer_vouched, ReportedVouched, DemandedVouched};
ghost use Rattle.batch.specs.Batch.{batch_refusal, batch_bytes};
ghost use Rattle.conflicts.specs.Conflicts.{conflict_answer, conflict_bytes};
ghost use Rattle.exports.specs.Contexts.{at};
ghost use Rattle.exports.specs.Packed.{packed, unpacked};
ghost use Rattle.decision.specs.Decision.{decision_of, decision_lent};
ghost use Rattle.sheet.specs.Sheets.{opened, signed, withdrawn, asked};
ghost use Rattle.sheet.specs.Form.{bytes_of, sheet_of};
ghost use Rattle.sheet.specs.Outcomes.{outcome_of};
ghost use Rattle.shift.specs.Shift.{bound_answer};

use reader::{Answer, Refusal, Refused};
use sheet::Sheet;
use weights::Context;

// The context of four numbers.
fn context(minute: u32, day: u32, zone: u32, date: u32) -> Context
    ensures { result ≡ at minute day zone date }
{
    Context {
        minute,
        day,
        zone,
        date,
    }
}

// The base check: 0 or the first of refusals 1 to 9 that applies.
#[unsafe(no_mangle)]
pub extern "C" fn release_check(base: &[u8]) -> u32
    ensures { result ≡ refusal_of base.now }
{
    number(reader::check(base))
}

// The decision on a group: 0 where it is granted, else the first of refusals 1 to 15, 24, 16 and 17 that applies.
#[unsafe(no_mangle)]
pub extern "C" fn release_decide(
    base: &[u8],
    permission: u32,
    minute: u32,
    day: u32,
    zone: u32,
    date: u32,
    group: &[u8],
) -> u32
    ensures { result ≡ decision_of base.now (at minute day zone date) permission group.now }
{
    let at = context(minute, day, zone, date);
    number(decision::decide(base, permission, at, group))
}

// The release report: 0, and 13 bytes a permission in out, or the first of refusals 1 to 9, 11 and 19 that applies;
// plus 256 times the count, which is the number of permissions that have a group. A refusal carries 0. base and out
// don't overlap.
#[unsafe(no_mangle)]
pub extern "C" fn release_report(
    base: &[u8],
    minute: u32,
    day: u32,
    zone: u32,
    date: u32,
    out: &mut [u8],
) -> u64
    ensures answer { result ≡ packed (answer_of base.now (at minute day zone date) (length out.old)) }
    ensures promise { ReportedOf base.now (at minute day zone date) out.old out.new (unpacked result) }
    ensures demand { Demanded base.now (at minute day zone date) out.old out.new (unpacked result) }
{
    let at = context(minute, day, zone, date);
    pack(report::report(base, at, out))
}

// The decision by a resolution list: 0 where the group is granted, else the first of refusals 1 to 9, 22, 10 to 15, 24,
// 16 and 17 that applies.
#[unsafe(no_mangle)]
pub extern "C" fn release_decide_by(
    base: &[u8],
    permission: u32,
    minute: u32,
    day: u32,
    zone: u32,
    date: u32,
    list: &[u8],
    group: &[u8],
) -> u32
    ensures { result ≡ decision_lent list.now base.now (at minute day zone date) permission group.now }
{
    let at = context(minute, day, zone, date);
    number(decision::decide_by(base, permission, at, list, group))
}

// The release report by a resolution list: as without one, but by the decision with that list, and with refusal 22 of
// the list after 9. out overlaps neither base nor list.
#[unsafe(no_mangle)]
pub extern "C" fn release_report_by(
    base: &[u8],
    minute: u32,
    day: u32,
    zone: u32,
    date: u32,
    list: &[u8],
    out: &mut [u8],
) -> u64
    ensures answer { result ≡ packed (answer_lent list.now base.now (at minute day zone date) (length out.old)) }
    ensures promise { ReportedLent list.now base.now (at minute day zone date) out.old out.new (unpacked result) }
    ensures demand { DemandedLent list.now base.now (at minute day zone date) out.old out.new (unpacked result) }
{
    let at = context(minute, day, zone, date);
    pack(report::report_by(base, at, list, out))
}

// The vouching decision: 0 where the group is granted and each other entry's user vouches for the first one's, else the
// first of refusals 1 to 9, 25, 27, 10 to 15, 24, 26, 16 and 17 that applies.
#[unsafe(no_mangle)]
pub extern "C" fn release_vouch_decide(
    base: &[u8],
    permission: u32,
    minute: u32,
    day: u32,
    zone: u32,
    date: u32,
    register: &[u8],
    threshold: u32,
    group: &[u8],
) -> u32
    ensures { result ≡
        decision_vouched register.now threshold base.now (at minute day zone date) permission group.now }
{
    let at = context(minute, day, zone, date);
    number(vouch::decide_vouched(base, permission, at, register, threshold, group))
}

// The vouching report: as the first, but over the groups that the requester leads and the vouching decision grants, and
// with refusals 25 and 27 after 9, and 13 of the requester after 11. out overlaps neither base nor register.
#[unsafe(no_mangle)]
pub extern "C" fn release_vouch_report(
    base: &[u8],
    minute: u32,
    day: u32,
    zone: u32,
    date: u32,
    register: &[u8],
    threshold: u32,
    requester: u32,
    out: &mut [u8],
) -> u64
    ensures answer { result ≡
        packed (answer_vouched register.now threshold base.now (at minute day zone date) requester (length out.old)) }
    ensures promise { ReportedVouched register.now threshold base.now (at minute day zone date) requester
        out.old out.new (unpacked result) }
    ensures demand { DemandedVouched register.now threshold base.now (at minute day zone date) requester
        out.old out.new (unpacked result) }
{
    let at = context(minute, day, zone, date);
    pack(vouch::report_vouched(base, at, register, threshold, requester, out))
}

// The batch: 0, and the answer to each query in answers, a byte each, or the first of refusals 1 to 9, 11 and 28 that
// applies. answers overlaps neither base nor queries.
#[unsafe(no_mangle)]
pub extern "C" fn release_batch(
    base: &[u8],
    minute: u32,
    day: u32,
    zone: u32,
    date: u32,
    queries: &[u8],
    answers: &mut [u8],
) -> u32
    ensures refusal { result ≡
        batch_refusal base.now (at minute day zone date) (length queries.now) (length answers.old) }
    ensures bytes { answers.new ≡ batch_bytes base.now (at minute day zone date) queries.now answers.old }
{
    let at = context(minute, day, zone, date);
    number(batch::batch(base, at, queries, answers))
}

// The conflict list: 0, and the list in out, or the first of refusals 1 to 9 and 18; plus 256 times the count, which
// is the number of records, of 18 the number that would be written, of 1 to 9 zero. base and out don't overlap.
#[unsafe(no_mangle)]
pub extern "C" fn release_conflicts(base: &[u8], out: &mut [u8]) -> u64
    ensures { (result ≡ packed (conflict_answer base.now (length out.old))) ×
        (out.new ≡ conflict_bytes base.now out.old) }
{
    pack(conflicts::list(base, out))
}

// Opening a sheet: 0, and the unsigned sheet for the permission, or the first of refusals 1 to 10 that applies, and the
// one for permission 255. All 14 bytes are written, of a refusal too. base and sheet don't overlap.
#[unsafe(no_mangle)]
pub extern "C" fn release_sheet_open(base: &[u8], permission: u32, sheet: &mut [u8; 14]) -> u32
    ensures { (result ≡ (opened base.now permission).refusal) ×
        (sheet.new ≡ bytes_of (opened base.now permission).sheet) }
{
    match sheet::open(base, permission) {
        Ok(opened) => {
            *sheet = opened.into();
            0
        }
        Err(unopened) => {
            *sheet = unopened.sheet.into();
            u32::from(u8::from(unopened.refusal))
        }
    }
}

// Signing a sheet: 0, and the sheet with the entry, or the first of refusals 1 to 9, 13, 14, 15 and 20 that applies,
// and no byte changed. base and sheet don't overlap.
#[unsafe(no_mangle)]
pub extern "C" fn release_sheet_sign(base: &[u8], user: u32, role: u32, sheet: &mut [u8; 14]) -> u32
    ensures outcome { (result ≡ (signed base.now (sheet_of sheet.old) user role).refusal) ×
        (sheet.new ≡ bytes_of (signed base.now (sheet_of sheet.old) user role).sheet) }
    ensures kept { (result ≡ 0 → ⊥) → sheet.new ≡ sheet.old }
{
    let given = sheet::sign(base, Sheet::from(&*sheet), user, role);
    put(given, sheet)
}

// Withdrawing a user from a sheet: 0, and the sheet with the other entries alone, every byte behind them 0, or 23 where
// the user has none of the entries that it holds, and no byte changed. No base is consulted.
#[unsafe(no_mangle)]
pub extern "C" fn release_sheet_withdraw(user: u32, sheet: &mut [u8; 14]) -> u32
    ensures outcome { (result ≡ (withdrawn (sheet_of sheet.old) user).refusal) ×
        (sheet.new ≡ bytes_of (withdrawn (sheet_of sheet.old) user).sheet) }
    ensures kept { (result ≡ 0 → ⊥) → sheet.new ≡ sheet.old }
{
    let given = sheet::withdraw(Sheet::from(&*sheet), user);
    put(given, sheet)
}

// Asking a sheet: the decision for its permission and the entries that it holds.
#[unsafe(no_mangle)]
pub extern "C" fn release_sheet_ask(
    base: &[u8],
    minute: u32,
    day: u32,
    zone: u32,
    date: u32,
    sheet: &[u8; 14],
) -> u32
    ensures { result ≡ asked base.now (sheet_of sheet.now) (at minute day zone date) }
{
    let at = context(minute, day, zone, date);
    number(sheet::ask(base, Sheet::from(sheet), at))
}

// How much one weight can shift: 0, or the first of refusals 1 to 9, 12 to 15 and 21 that applies; plus 256 times the
// bound on the shift of the group's sum of weights. A refusal carries 0.
#[unsafe(no_mangle)]
pub extern "C" fn release_bound(base: &[u8], policy: u32, weight: u32, group: &[u8]) -> u64
    ensures { result ≡ packed (bound_answer base.now policy weight group.now) }
{
    pack(shift::bound(base, policy, weight, group))
}

// The check of one parameter with so many roles: 0, or 5; plus 256 times the number of codes tried, which 5 carries
// too. Roles above 8 are read as 8.
#[unsafe(no_mangle)]
pub extern "C" fn release_parameter(parameter: u32, roles: u32) -> u64
    ensures { result ≡ packed (parameter_answer roles parameter) }
{
    pack(reader::codes::check_parameter(parameter, roles))
}

// Writes the sheet that a call gives: 0. Of a refusal its number, and no byte changed.
fn put(given: Result<Sheet, Refusal>, sheet: &mut [u8; 14]) -> u32
    ensures outcome { (result ≡ (outcome_of (sheet_of sheet.old) given).refusal) ×
        (sheet.new ≡ bytes_of (outcome_of (sheet_of sheet.old) given).sheet) }
    ensures kept { (result ≡ 0 → ⊥) → sheet.new ≡ sheet.old }
{
    match given {
        Ok(signed) => {
            *sheet = signed.into();
            0
        }
        Err(unsigned) => u32::from(u8::from(unsigned)),
    }
}

// 0, or the number of the refusal. No `From`: neither a `Result` nor a `u32` is this crate's.
fn number(given: Result<(), Refusal>) -> u32
    ensures { result ≡ number_of given }
{
    match given {
        Ok(_) => 0,
        Err(refusal) => u32::from(u8::from(refusal)),
    }
}

// An answer as one number: what C gets of a `Result`; no `From`, as above.
fn pack(given: Result<u32, Refused>) -> u64
    ensures { result ≡ packed (answer_from given) }
{
    let answer = Answer::from(given);
    u64::from(answer.refusal) + 256 * u64::from(answer.count)
}

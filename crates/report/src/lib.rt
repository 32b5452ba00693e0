// The release report: the smallest group for each permission.
#![tactic(auto)]

ghost use Rattle.std.specs.Prelude.{◌≡◌, ◌*◌, ◌≤◌, length};
ghost use Rattle.reader.specs.Tables.{permission_count};
ghost use Rattle.reader.specs.Refusals.{answer_from, number_of};
ghost use Rattle.report.specs.Report.{room, fitting, ReportedOf, ReportedLent};
ghost use Rattle.report.specs.Parts.{Settled, decided, FilledBy};
ghost use Rattle.report.specs.Demand.{Demanded, DemandedLent};

use reader::{Base, Refusal, Refused, bytes};
use weights::Context;

pub mod parts;

// Entry point: writes for each permission the number k of approvers, k entries by rising user, and 255 in every byte
// left of 13; later bytes keep their contents. The count is the number of permissions with k above 0. Refusals 1 to 9,
// 11 and 19 carry 0 and write nothing. It needs about 30,000 bytes of stack.
pub fn report(base: &[u8], at: Context, out: &mut [u8]) -> Result<u32, Refused>
    ensures promise { ReportedOf base.now at out.old out.new (answer_from result) }
    ensures demand { Demanded base.now at out.old out.new (answer_from result) }
{
    let base = reader::accept(base)?;
    fitting_refusal(&base, at, out.len())?;
    let s = weights::setting(&base, at);
    Ok(parts::fill_by_setting(&base, s, out))
}

// Entry point: the same by a resolution list, of the decision that `decide_by` gives with that list; 22 comes after 9.
// Two entry points, for they differ in which refusals come first; what follows is `parts::fill_by_setting`.
pub fn report_by(base: &[u8], at: Context, list: &[u8], out: &mut [u8]) -> Result<u32, Refused>
    ensures promise { ReportedLent list.now base.now at out.old out.new (answer_from result) }
    ensures demand { DemandedLent list.now base.now at out.old out.new (answer_from result) }
{
    let base = resolution::accept(base, list)?;
    fitting_refusal(&base, at, out.len())?;
    let s = weights::setting_by(&base, at, list);
    Ok(parts::fill_by_setting(&base, s, out))
}

// Refusals 11 and 19 for an accepted base and a buffer of n bytes.
fn fitting_refusal(base: &Base<'_>, at: Context, n: usize) -> Result<(), Refusal>
    ensures { number_of result ≡ fitting base.now at n }
{
    if weights::contexts::out_of_range(at) {
        return Err(Refusal::Context);
    }
    room_refusal(base, n)
}

// Inner: refusal 19 alone.
pub fn room_refusal(base: &Base<'_>, n: usize) -> Result<(), Refusal>
    ensures { number_of result ≡ room base.now n }
{
    if n < 13 * bytes::wide(base.permission_count()) {
        return Err(Refusal::ReportRoom);
    }
    Ok(())
}

// The conflict list: every pair of policies, or of a user and an exclusion, that conflicts, and no other.
#![tactic(auto)]

ghost use Rattle.std.specs.Prelude.{◌≡◌, length};
ghost use Rattle.reader.specs.Refusals.{answer_from};
ghost use Rattle.conflicts.specs.Conflicts.{conflict_answer, conflict_bytes};

use reader::{Refusal, Refused};
use weights::acting::Acting;

mod covers;
mod exclusions;
mod filling;
mod rows;
mod writing;

// Entry point: writes the conflict list; refusals 1 to 9, then 18, which carries the number that would be written.
pub fn list(base: &[u8], out: &mut [u8]) -> Result<u32, Refused>
    ensures { (answer_from result ≡ conflict_answer base.now (length out.old))
        × (out.new ≡ conflict_bytes base.now out.old) }
{
    let base = reader::accept(base)?;
    let one = rows::contradictions(&base);
    let acting = Acting::of(&base);
    let two = rows::overlaps(&base, acting.juniors());
    let three = rows::holders(&base, &acting.sets());
    let count = one.count() + two.count() + three.count();
    if out.len() < 3 * (count as usize) {
        return Err(Refused {
            refusal: Refusal::ConflictRoom,
            count,
        });
    }
    let behind = one.write(out, 0);
    let last = two.write(out, behind);
    three.write(out, last);
    Ok(count)
}

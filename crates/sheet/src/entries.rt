// The entries that a sheet holds, and the refusals of a new one.
ghost use Rattle.std.specs.Prelude.{◌≡◌};
ghost use Rattle.reader.specs.Refusals.{number_of};
ghost use Rattle.sheet.specs.Sheets.{stands_in, sign_refusal};

use decision::groups::{self, Entry};
use reader::Refusal;
use weights::acting::Acting;

// Inner: refusal 14 of a new entry; of a withdrawal, that 23 doesn't apply.
pub fn stands_in(held: &[u8], user: u32) -> bool
    ensures { result ≡ stands_in held.now user }
{
    (0..held.len() / 2).any(|i| u32::from(Entry::of(held, i).user) == user)
}

// Inner: refusals 1 to 9, 13 to 15 and 20 of a signing. Its user and role may be any u32: the two bytes of an `Entry`
// would cut them.
pub fn sign_refusal(base: &[u8], held: &[u8], user: u32, role: u32) -> Result<(), Refusal>
    ensures { number_of result ≡ sign_refusal base.now held.now user role }
{
    let base = reader::accept(base)?;
    if groups::is_unknown(base.user_count(), base.role_count(), user, role) {
        return Err(Refusal::Unknown);
    }
    if stands_in(held, user) {
        return Err(Refusal::Twice);
    }
    if !Acting::of(&base).may_act(user as usize, role as usize) {
        return Err(Refusal::Ineligible);
    }
    if 6 <= held.len() / 2 {
        return Err(Refusal::FullSheet);
    }
    Ok(())
}

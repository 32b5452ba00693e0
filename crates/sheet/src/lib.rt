// A sheet that collects signatures for one permission: opened, signed one by one against a base, asked; signatures can
// be taken back.
#![tactic(auto)]

ghost use Rattle.std.specs.Prelude.{◌≡◌, ◌*◌, ◌<◌, length};
ghost use Rattle.reader.specs.Refusals.{number_of};
ghost use Rattle.sheet.specs.Outcomes.{unopened, opening_outcome, outcome_of};
ghost use Rattle.sheet.specs.Sheets.{unsigned, opened, signed, asked, with_entry};
ghost use Rattle.sheet.specs.Sheets.{held_on, holding, entries_without, withdrawn};

use decision::groups::Entry;
use reader::Refusal;
use weights::Context;

pub mod entries;
pub mod form;

// The permission, how many entries are claimed, and room for six of 2 bytes: user, role acted in. A count beside the
// room, for the C interface: any 14 bytes are a sheet, and may claim any number.
#[derive(Clone, Copy)]
pub struct Sheet {
    pub permission: u8,
    pub count: u8,
    pub entries: [u8; 12],
}

// An opening that is refused, with the sheet that it gives all the same: the unsigned one for permission 255.
#[derive(Clone, Copy)]
pub struct Unopened {
    pub refusal: Refusal,
    pub sheet: Sheet,
}

impl From<Refusal> for Unopened {
    ghost from_gives = { λ r given. given ≡ unopened r };

    fn from(refusal: Refusal) -> Unopened {
        Unopened {
            refusal,
            sheet: Sheet::unsigned(255),
        }
    }
}

// Entry point: the unsigned sheet for the permission; of refusals 1 to 10, that for permission 255.
pub fn open(base: &[u8], permission: u32) -> Result<Sheet, Unopened>
    ensures { opening_outcome result ≡ opened base.now permission }
{
    let base = reader::accept(base)?;
    if u32::from(base.permission_count()) <= permission {
        return Err(Refusal::Permission.into());
    }
    Ok(Sheet::unsigned(permission as u8))
}

// Entry point: the sheet with the entry behind those that it holds; refusals 1 to 9, 13 to 15 and 20. A refused caller
// has the sheet as it was.
pub fn sign(base: &[u8], s: Sheet, user: u32, role: u32) -> Result<Sheet, Refusal>
    ensures { outcome_of s result ≡ signed base.now s user role }
{
    entries::sign_refusal(base, s.held(), user, role)?;
    let mut sheet = s;
    sheet.add(Entry {
        user: user as u8,
        role: role as u8,
    });
    Ok(sheet)
}

// Entry point: the sheet without the user's entries; refusal 23, whose caller has the sheet as it was.
pub fn withdraw(sheet: Sheet, user: u32) -> Result<Sheet, Refusal>
    ensures { outcome_of sheet result ≡ withdrawn sheet user }
{
    if !entries::stands_in(sheet.held(), user) {
        return Err(Refusal::NotSigned);
    }
    Ok(sheet.without(user))
}

// Entry point: the decision for the sheet's permission and the entries that it holds. It alone asks for the users'
// days, refusal 24; the other calls on a sheet know no date.
pub fn ask(base: &[u8], s: Sheet, at: Context) -> Result<(), Refusal>
    ensures { number_of result ≡ asked base.now s at }
{
    decision::decide(base, u32::from(s.permission), at, s.held())
}

impl Sheet {
    fn unsigned(permission: u8) -> Sheet
        ensures { result ≡ unsigned permission }
    {
        Sheet {
            permission,
            count: 0,
            entries: [0; 12],
        }
    }

    // Inner: the bytes of the entries that the sheet holds.
    pub fn held(&self) -> &[u8]
        ensures { (result.now ≡ held_on self.now) × (length self.now.entries ≡ 12) }
    {
        &self.entries[..2 * usize::from(self.count.min(6))]
    }

    // Puts an entry behind those claimed, where there is room for it.
    fn add(&mut self, entry: Entry)
        requires { self.old.count < 6 }
        ensures { self.new ≡ with_entry self.old entry.user entry.role }
    {
        let at = 2 * usize::from(self.count);
        self.entries[at] = entry.user;
        self.entries[at + 1] = entry.role;
        self.count += 1;
    }

    // The sheet with the entries of all others alone, in their order.
    fn without(&self, user: u32) -> Sheet
        ensures { result ≡ holding self.now.permission (entries_without user (held_on self.now)) }
    {
        let mut left = Sheet::unsigned(self.permission);
        for bytes in self.held().chunks_exact(2) {
            let entry = Entry::of(bytes, 0);
            if u32::from(entry.user) != user {
                left.add(entry);
            }
        }
        left
    }
}

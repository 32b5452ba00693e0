// The base check behind the trailer, refusals 4 to 9, and the base that passed it.
ghost use Rattle.std.specs.Prelude.{◌≡◌, ◌≤◌, List, ℕ, IfOk};
ghost use Rattle.reader.specs.Tables.{table_of, role_count, user_count, permission_count};
ghost use Rattle.reader.specs.Rules.{refusal_of, records_refusal};
ghost use Rattle.reader.specs.Refusals.{number_of};
ghost use Rattle.reader.specs.Places.{place_of};

use crate::trailer::Frame;
use crate::{Refusal, Table, clauses, contexts, records, users};
use std::marker::Model;

// A lent base that the check accepts, seen as its bytes.
#[derive(Drop)]
pub struct Base<'a> {
    frame: Frame<'a>,
}

impl<'a> Model for Base<'a> {
    ghost Value = { List ℕ };

    ghost view = { λ base. base.frame };

    ghost invariant = { λ base. refusal_of base.frame ≡ 0 };
}

// Inner: refusals 1 to 9 of a base, or the base as one that is accepted.
pub fn accept(base: &[u8]) -> Result<Base<'_>, Refusal>
    ensures number { number_of result ≡ refusal_of base.now }
    ensures same { IfOk result (λ accepted. accepted ≡ base.now) }
{
    let frame = Frame::of(base)?;
    records_refusal(&frame)?;
    Ok(Base { frame })
}

// Refusals 4 to 9, of a base that passed 1 to 3.
fn records_refusal(base: &Frame<'_>) -> Result<(), Refusal>
    ensures { number_of result ≡ records_refusal base.now }
{
    let numbers = base.numbers();
    if records::hierarchy_bad(base.part(Table::Hierarchy), numbers.roles) {
        return Err(Refusal::Hierarchy);
    }
    if users::users_bad(base.part(Table::Users), numbers.roles) {
        return Err(Refusal::Users);
    }
    if clauses::clauses_bad(base.part(Table::Clauses), numbers) {
        return Err(Refusal::Clauses);
    }
    if contexts::contexts_bad(base.part(Table::Contexts)) {
        return Err(Refusal::Contexts);
    }
    if records::policies_bad(base.part(Table::Policies), numbers) {
        return Err(Refusal::Policies);
    }
    if records::exclusions_bad(base.part(Table::Exclusions), numbers) {
        return Err(Refusal::Exclusions);
    }
    Ok(())
}

// Each handed on: by `Deref` a caller would be told all this of the frame lent, and its proof would have to bring each
// read to the base.
impl<'a> Base<'a> {
    // Inner: a table; the base it is of is an accepted one.
    pub fn part(&self, table: Table) -> &'a [u8]
        ensures table { result.now ≡ table_of self.now (place_of table) }
        ensures accepted { refusal_of self.now ≡ 0 }
    {
        self.frame.part(table)
    }

    // Inner: R.
    pub fn role_count(&self) -> u8
        ensures { (result ≡ role_count self.now) × (result ≤ 8) }
    {
        self.frame.role_count()
    }

    // Inner: the number of users.
    pub fn user_count(&self) -> usize
        ensures { (result ≡ user_count self.now) × (result ≤ 24) }
    {
        self.frame.user_count()
    }

    // Inner: the number of permissions.
    pub fn permission_count(&self) -> u8
        ensures { result ≡ permission_count self.now }
    {
        self.frame.permission_count()
    }
}

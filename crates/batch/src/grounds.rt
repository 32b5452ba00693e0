// What a batch's queries go by, worked out once.
ghost use Rattle.std.specs.Prelude.{◌≡◌, ℕ, List, true, ◌≤◌, length};
ghost use Rattle.folds.specs.Sets.{in_set};
ghost use Rattle.reader.specs.Refusals.{number_of};
ghost use Rattle.weights.specs.declared.Context.{Context};
ghost use Rattle.batch.specs.Queries.{query_permission, answer_to};
ghost use Rattle.batch.specs.Asked.{asked_for};

use crate::permissions::Permissions;
use crate::queries::{self, Query};
use crate::users::Users;
use reader::{Base, Refusal};
use seek::Masks;
use weights::Fixed;

// How many permissions there are, who may stand in a group, and the weights and clauses of the permissions asked for.
#[derive(Drop)]
pub struct Grounds<'a> {
    pub permission_count: u8,
    pub users: Users,
    pub permissions: Permissions<'a>,
    pub ghost few: { permission_count ≤ 16 },
}

impl<'a> Grounds<'a> {
    ghost use Rattle.batch.specs.Steps.{Settled, GroundsFor};

    // Inner: those of an accepted base in a setting without a list, for the queries.
    pub fn of(base: &Base<'_>, s: Fixed, queries: &[u8], masks: &'a mut Masks) -> Grounds<'a>
        requires { Settled base.now s }
        ensures { GroundsFor base.now s.at queries.now result }
    {
        let permission_count = base.permission_count();
        let asked = queries::asked(queries, permission_count);
        Grounds {
            permission_count,
            users: Users::of(base, s),
            permissions: Permissions::of(base, s, asked, masks),
        }
    }

    // Inner: the answer to a query, for a permission that some query of the batch asks for.
    pub fn decide(&self, query: &[u8]) -> Result<(), Refusal>
        requires { length query.now ≡ 14 }
        ensures { (b : List ℕ) (at : Context) (queries : List ℕ) → GroundsFor b at queries self.now →
            asked_for queries (query_permission query.now) ≡ true →
            number_of result ≡ answer_to b at query.now }
    {
        let Query { permission, group } = Query::of(query, self.permission_count)?;
        let w = self.permissions.role_weights(permission);
        let Some(seen) = self.users.look(group, w) else {
            return Err(Refusal::Unknown);
        };
        seen.users_refusal()?;
        let entries = group.len() / 2;
        self.permissions
            .weighed_refusal(permission, entries, seen.sum, seen.roles)
    }
}

// What a query asks: a permission, and the entries of a group.
ghost use Rattle.std.specs.Prelude.{◌≡◌, ◌≤◌, ◌<◌, length, not, cond, ltb, IfOk};
ghost use Rattle.reader.specs.Refusals.{number_of};
ghost use Rattle.batch.specs.Queries.{query_permission, entry_count_of, query_group, count_refused};
ghost use Rattle.batch.specs.Asked.{AskedBy};
ghost use Rattle.batch.specs.Steps.{QueryOf};

use reader::{Refusal, bytes};
use weights::sets;

// A permission that is there, and a group's bytes: 1 to 6 entries.
#[derive(Clone, Copy)]
pub struct Query<'a> {
    pub permission: u8,
    pub group: &'a [u8],
}

impl<'a> Query<'a> {
    // Inner: refusals 10 and 12 of a query, by the number of permissions, or what it asks.
    pub fn of(query: &'a [u8], permissions: u8) -> Result<Query<'a>, Refusal>
        requires { length query.now ≡ 14 }
        ensures number { number_of result ≡
            cond (not (ltb (query_permission query.now) permissions)) 10
            (cond (count_refused (entry_count_of query.now)) 12 0) }
        ensures asks { IfOk result (λ q. QueryOf permissions query.now q) }
    {
        let permission = query[0];
        let n = bytes::wide(query[1]);
        if permissions <= permission {
            return Err(Refusal::Permission);
        }
        if n == 0 || 6 < n {
            return Err(Refusal::GroupLength);
        }
        let group = &query[2..2 + 2 * n];
        Ok(Query { permission, group })
    }
}

// Inner: the set of the permissions that some query asks for, of so many permissions.
pub fn asked(queries: &[u8], permissions: u8) -> u32
    requires { permissions ≤ 16 }
    ensures { AskedBy permissions queries.now result }
{
    (0..queries.len() / 14).fold(0, |asked, i| {
        let permission = queries[14 * i];
        if permission < permissions {
            asked | sets::bit(permission)
        } else {
            asked
        }
    })
}

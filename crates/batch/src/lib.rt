// The batch: queries on one base in one context, each answered as the first decision answers it.
#![tactic(auto)]

ghost use Rattle.std.specs.Prelude.{◌≡◌, ◌≤◌, length};
ghost use Rattle.reader.specs.Refusals.{number_of};
ghost use Rattle.batch.specs.Queries.{query_count, answer_to};
ghost use Rattle.batch.specs.Steps.{Settled};
ghost use Rattle.batch.specs.Batch.{fitting, batch_refusal, batch_bytes, answered_all};

use reader::{Base, Refusal};
use seek::Masks;
use weights::{Context, Fixed};

mod grounds;
mod permissions;
mod queries;
mod users;

use grounds::Grounds;
use queries::Query;

// Entry point: the first decision's answer to each of at most 1,024 queries of 14 bytes, a byte each, in order; later
// bytes keep their contents. A query is a permission, an entry count n and six entries, of which the first n are read;
// n of 0 or above 6 answers 12, unless 10 applies. The call is refused with 1 to 9, 11 and 28, and then writes nothing.
pub fn batch(base: &[u8], at: Context, queries: &[u8], answers: &mut [u8]) -> Result<(), Refusal>
    ensures refusal { number_of result ≡ batch_refusal base.now at (length queries.now) (length answers.old) }
    ensures bytes { answers.new ≡ batch_bytes base.now at queries.now answers.old }
{
    let base = reader::accept(base)?;
    fitting_refusal(at, queries.len(), answers.len())?;
    let s = weights::setting(&base, at);
    // To work out the grounds takes as long as some four decisions (measured).
    if queries.len() <= 4 * 14 {
        answer_few(&base, s, queries, answers);
    } else {
        answer_many(&base, s, queries, answers);
    }
    Ok(())
}

// Refusals 11 and 28 of so many bytes of queries and of answers.
fn fitting_refusal(at: Context, queries: usize, answers: usize) -> Result<(), Refusal>
    ensures { number_of result ≡ fitting at queries answers }
{
    if weights::contexts::out_of_range(at) {
        return Err(Refusal::Context);
    }
    if queries % 14 != 0 || 1024 < queries / 14 || answers < queries / 14 {
        return Err(Refusal::Queries);
    }
    Ok(())
}

// The answer to a query, by the decision itself.
fn decide_alone(base: &Base<'_>, s: Fixed, query: &[u8]) -> Result<(), Refusal>
    requires { (length query.now ≡ 14) × Settled base.now s }
    ensures { number_of result ≡ answer_to base.now s.at query.now }
{
    let query = Query::of(query, base.permission_count())?;
    decision::decide_checked(base, query.permission, s, query.group)
}

// Answers the queries, each by the decision itself.
fn answer_few(base: &Base<'_>, s: Fixed, queries: &[u8], answers: &mut [u8])
    requires { Settled base.now s × (query_count queries.now ≤ length answers.old) }
    ensures { answers.new ≡ answered_all base.now s.at queries.now answers.old }
{
    for i in 0..queries.len() / 14 {
        answers[i] = number(decide_alone(base, s, &queries[14 * i..14 * i + 14]));
    }
}

// Answers the queries by grounds worked out once.
fn answer_many(base: &Base<'_>, s: Fixed, queries: &[u8], answers: &mut [u8])
    requires { Settled base.now s × (query_count queries.now ≤ length answers.old) }
    ensures { answers.new ≡ answered_all base.now s.at queries.now answers.old }
{
    // Each is written before it is read; filled unlike they are cleared apart, by vectors and not byte by byte.
    let mut masks = Masks {
        sums: [0; 256],
        sets: [u64::MAX; 256],
    };
    let grounds = Grounds::of(base, s, queries, &mut masks);
    for i in 0..queries.len() / 14 {
        answers[i] = number(grounds.decide(&queries[14 * i..14 * i + 14]));
    }
}

// 0, or the number of the refusal: an answer's byte. No `From`: neither a `Result` nor a `u8` is this crate's.
fn number(given: Result<(), Refusal>) -> u8
    ensures { result ≡ number_of given }
{
    match given {
        Ok(_) => 0,
        Err(refusal) => u8::from(refusal),
    }
}

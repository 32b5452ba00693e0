// Which policy overrides which: a resolution list of rules.
#![tactic(auto)]

ghost use Rattle.std.specs.Prelude.{◌≡◌, ◌+◌, ◌*◌, ◌≤◌, ◌<◌, IfOk, length, take};
ghost use Rattle.std.specs.Ordering.{is_lt, is_gt};
ghost use Rattle.reader.specs.Refusals.{number_of};
ghost use Rattle.resolution.specs.Rules.{byte_of, Names};
ghost use Rattle.resolution.specs.Resolution.{rule_before, goes_before, repeated, list_refused, lent};

use reader::{Base, Refusal, bytes};
use std::cmp::Ordering;

// What goes first of two policies: the later issue day, the larger rank number or the smaller weight.
#[derive(Clone, Copy)]
enum Rule {
    LaterDay,
    LargerRank,
    SmallerWeight,
}

impl TryFrom<u8> for Rule {
    type Error = Refusal;

    ghost try_from_gives = { Names };

    fn try_from(byte: u8) -> Result<Rule, Refusal> {
        match byte {
            0 => Ok(Rule::LaterDay),
            1 => Ok(Rule::LargerRank),
            2 => Ok(Rule::SmallerWeight),
            _ => Err(Refusal::Rules),
        }
    }
}

impl Rule {
    // How policies i and j of the table A stand by it: `Less` where it puts i before j.
    fn compare(self, a: &[u8], i: usize, j: usize) -> Ordering
        requires { (8 * i + 8 ≤ length a.now) × (8 * j + 8 ≤ length a.now) }
        ensures before { is_lt result ≡ rule_before (byte_of self) a.now i j }
        ensures after { is_gt result ≡ rule_before (byte_of self) a.now j i }
    {
        let x = 8 * i;
        let y = 8 * j;
        match self {
            Rule::LaterDay => bytes::get16(a, y + 6).cmp(&bytes::get16(a, x + 6)),
            Rule::LargerRank => a[y + 5].cmp(&a[x + 5]),
            Rule::SmallerWeight => a[x + 2].cmp(&a[y + 2]),
        }
    }
}

// Byte k of the list stands before it too.
fn is_repeated(list: &[u8], k: usize) -> bool
    requires { k < length list.now }
    ensures { result ≡ repeated list.now k }
{
    list[..k].contains(&list[k])
}

// Refusal 22.
fn list_refused(list: &[u8]) -> bool
    ensures { result ≡ list_refused list.now }
{
    list.is_empty()
        || 3 < list.len()
        || (0..list.len()).any(|k| is_repeated(list, k) || Rule::try_from(list[k]).is_err())
}

// Inner: refusals 1 to 9 of the base and 22 of the list, or the base as one that is accepted.
pub fn accept<'a>(base: &'a [u8], list: &[u8]) -> Result<Base<'a>, Refusal>
    ensures number { number_of result ≡ lent list.now base.now 0 }
    ensures same { IfOk result (λ accepted. accepted ≡ base.now) }
{
    let accepted = reader::accept(base)?;
    if list_refused(list) {
        return Err(Refusal::Rules);
    }
    Ok(accepted)
}

// Inner: the bytes of a list of at most three, from the front of an array.
pub fn rules_of(list: &[u8]) -> [u8; 3]
    requires { length list.now ≤ 3 }
    ensures { (length result ≡ 3) × (take (length list.now) result ≡ list.now) }
{
    let mut rules = [0u8; 3];
    rules[..list.len()].copy_from_slice(list);
    rules
}

// Inner: policy i of the table A goes before policy j by the rules of the list, or else by table order. It takes any
// bytes that hold the two records, which asks less than `Policies` promises.
pub fn goes_before(list: &[u8], a: &[u8], i: usize, j: usize) -> bool
    requires { (8 * i + 8 ≤ length a.now) × (8 * j + 8 ≤ length a.now) }
    ensures { result ≡ goes_before list.now a.now i j }
{
    // A loop over the rules: a chain's `find` would hand an `Ordering` on in an `Option`, to be matched again.
    for &byte in list {
        if let Ok(rule) = Rule::try_from(byte) {
            match rule.compare(a, i, j) {
                Ordering::Less => return true,
                Ordering::Greater => return false,
                Ordering::Equal => {}
            }
        }
    }
    i < j
}

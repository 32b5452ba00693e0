// Operators, shared by the conditions of contexts and groups.
ghost use Rattle.std.specs.Prelude.{◌≡◌};
ghost use Rattle.std.specs.Option.{unwrap_or};
ghost use Rattle.weights.specs.Operators.{meets, RangeOf};

use reader::bytes;

// Inner: x stands to the value v as the operator says. Document 01 asks for the operator's number, with ranges.
pub fn is_met(operator: u8, x: u32, v: u32) -> bool
    ensures { result ≡ meets operator x v }
{
    match operator {
        0..=1 => if operator == 0 { v < x } else { x < v },
        2..=3 => if operator == 2 { v <= x } else { x <= v },
        4..=5 => if operator == 4 { x == v } else { x != v },
        6 => x & v == v,
        _ => false,
    }
}

// The numbers from `low` to before `end`, but for one where there is a `but`.
#[derive(Clone, Copy)]
pub struct Range {
    pub low: usize,
    pub end: usize,
    pub but: Option<usize>,
}

fn from_to(low: usize, end: usize) -> Range
    ensures { (result.low ≡ low) × (result.end ≡ end) × (result.but ≡ None) }
{
    Range {
        low,
        end,
        but: None,
    }
}

// Inner: the numbers below 256 that stand to the value v as the operator says, one of 0 to 5. By the operator's number,
// as `is_met`; single numbers, since each has a range of its own.
pub fn range_of(operator: u8, v: u8) -> Range
    ensures { RangeOf operator v result.low result.end (unwrap_or result.but 256) }
{
    let x = bytes::wide(v);
    match operator {
        0 => from_to(x + 1, 256),
        1 => from_to(0, x),
        2 => from_to(x, 256),
        3 => from_to(0, x + 1),
        4 => from_to(x, x + 1),
        5 => Range {
            low: 0,
            end: 256,
            but: Some(x),
        },
        _ => from_to(0, 0),
    }
}

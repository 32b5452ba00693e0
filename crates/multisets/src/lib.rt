// Multisets of at most six roles by rank; their least ends, sums and sets, and the way back.
#![tactic(auto)]

ghost use Rattle.multisets.specs.Values.{Light};

pub mod back;
pub mod ends;
mod growth;
pub mod levels;
pub mod ranks;
mod values;

// What a search weighs by: the roles' weights, none above 40; where they end (that none from there on is above 0 is the
// search's to ask); and the sum of the entries placed before.
#[derive(Clone, Copy)]
pub struct Weighing {
    pub w: [u8; 8],
    pub end: usize,
    pub placed: u8,
    pub ghost light: { Light w },
}

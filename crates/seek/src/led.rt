// A group behind an entry in front, as a search finds it.
ghost use Rattle.std.specs.Prelude.{◌≤◌};

use crate::Found;

// The role of the entry in front, and the fewest beside it.
#[derive(Clone, Copy)]
pub struct Led {
    pub role: u8,
    pub beside: Found,
    pub ghost few: { beside.n ≤ 5 },
}

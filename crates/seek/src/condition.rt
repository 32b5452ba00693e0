// What a search looks for in a level's places.
ghost use Rattle.std.specs.Prelude.{◌≡◌, ◌<◌, length, get_or};
ghost use Rattle.std.specs.Int.Bits.{bit_or};

use crate::Masks;

// Inner: the row of clauses, and the masks that sums and sets meet with what is in front of the entries: from its
// weight on, and with its roles. Nobody is in front where LED is 0: a number of the type, so that the look-ups, the
// search's innermost steps, are then those of the masks alone.
#[derive(Clone, Copy)]
pub struct Condition<'a, const LED: usize> {
    pub row: u64,
    pub masks: &'a Masks,
    pub above: &'a [u64],
    pub front: u8,
    pub ghost nobody: { LED ≡ 0 → (above.now ≡ masks.now.sums) × (front ≡ 0) },
}

impl<const LED: usize> Condition<'_, LED> {
    // Inner: the clauses that a sum meets.
    pub fn of_sum(&self, sum: u8) -> u64
        requires { sum < length self.now.above.now }
        ensures { result ≡ get_or self.now.above.now sum 0 }
    {
        if LED == 0 {
            self.masks.sums[usize::from(sum)]
        } else {
            self.above[usize::from(sum)]
        }
    }

    // Inner: the clauses that a set meets.
    pub fn of_set(&self, set: u8) -> u64
        ensures { result ≡ get_or self.now.masks.now.sets (bit_or self.now.front set) 0 }
    {
        if LED == 0 {
            self.masks.sets[usize::from(set)]
        } else {
            self.masks.sets[usize::from(self.front | set)]
        }
    }
}

// Lists of which a closure makes each place.
ghost use Rattle.std.specs.Prelude.{◌≡◌, ℕ, ◌<◌, length, get_or};

// Inner: each place gets what `make` gives of its number. `array::from_fn` would make all 64 of an array, and `make`
// would have to answer behind the last policy or user too.
pub fn fill<T: Copy, F: Fn(usize) -> T>(places: &mut [T], make: F)
    requires callable { (i : ℕ) → i < length places.old → F.pre make i }
    ensures { (i : ℕ) (other : _) → i < length places.old → F.post make i (get_or places.new i other) }
{
    for (i, place) in places.iter_mut().enumerate() {
        *place = make(i);
    }
}

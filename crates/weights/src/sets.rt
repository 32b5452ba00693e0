// Sets of small numbers as one number: bit r for r. One function a width: a trait would say the same shift three times.
// A set of roles, a byte, is widened by whoever asks `in_set` of it.
ghost use Rattle.std.specs.Prelude.{◌≡◌, ◌^◌, ◌<◌};
ghost use Rattle.folds.specs.Sets.{in_set};

// Inner: r is in the set s.
pub fn in_set(s: u32, r: u8) -> bool
    requires { r < 32 }
    ensures { result ≡ in_set s r }
{
    (s >> r) % 2 == 1
}

// Inner: the set of r alone.
pub fn bit(r: u8) -> u32
    requires { r < 32 }
    ensures { result ≡ 2 ^ r }
{
    1u32 << r
}

// Inner: the set of role r alone, as a byte.
pub fn role_bit(r: u8) -> u8
    requires { r < 8 }
    ensures { result ≡ 2 ^ r }
{
    1u8 << r
}

// Inner: the set of j alone, of numbers below 64.
pub fn wide_bit(j: usize) -> u64
    requires { j < 64 }
    ensures { result ≡ 2 ^ j }
{
    1u64 << j
}

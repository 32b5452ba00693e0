// Numbers in bytes: little-endian and unsigned.
ghost use Rattle.std.specs.Prelude.{◌≡◌, ◌+◌, ◌≤◌, ◌<◌, length};
ghost use Rattle.reader.specs.Bytes.{word16, word32};

// Inner: a byte as an index. It says that the number is below 256, which `usize::from` doesn't: proofs lean on that.
pub fn wide(x: u8) -> usize
    ensures { (result ≡ x) × (result < 256) }
{
    usize::from(x)
}

// Two widths, two functions: `from_le_bytes` is each type's own, and no trait of std has it.

// Inner: the number in 2 bytes.
pub fn get16(b: &[u8], i: usize) -> u16
    requires { i + 2 ≤ length b.now }
    ensures { result ≡ word16 b.now i }
{
    u16::from_le_bytes([b[i], b[i + 1]])
}

// Inner: the number in 4 bytes.
pub fn get32(b: &[u8], i: usize) -> u32
    requires { i + 4 ≤ length b.now }
    ensures { result ≡ word32 b.now i }
{
    u32::from_le_bytes([b[i], b[i + 1], b[i + 2], b[i + 3]])
}

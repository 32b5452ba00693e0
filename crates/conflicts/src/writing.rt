// The rows of bits as records of 3 bytes: kind, first, second.
ghost use Rattle.std.specs.Prelude.{◌≡◌, ◌+◌, ◌*◌, ◌≤◌, length};
ghost use Rattle.std.proofs.lemmas.List.Edits.{sets};
ghost use Rattle.folds.specs.Below.{count_below};
ghost use Rattle.folds.specs.Sets.{in_set};
ghost use Rattle.conflicts.specs.Records.{records_of};
ghost use Rattle.conflicts.specs.Rows.{row_records};

use crate::rows::Conflicts;

// How many bits a row has.
fn row_count(row: u64) -> u32
    ensures { (result ≡ count_below 64 (in_set row)) × (result ≤ 64) }
{
    row.count_ones()
}

// Writes the records of one row from place at on, the lowest bit first; the place behind them. The kind is the byte
// that is written.
fn write_row(out: &mut [u8], at: usize, kind: u8, first: u8, row: u64) -> usize
    requires { at + length (row_records kind first row) ≤ length out.old }
    ensures { (result ≡ at + length (row_records kind first row))
        × (out.new ≡ sets out.old at (row_records kind first row)) }
{
    let mut next = at;
    let mut rest = row;
    // Bit by bit: a filter over the 64 numbers, tried, needs a test of its own and is no plainer, and the list of a
    // typical shop takes 2.7 times the instructions.
    while rest != 0 {
        let j = rest.trailing_zeros() as u8;
        out[next..next + 3].copy_from_slice(&[kind, first, j]);
        next += 3;
        rest &= rest - 1;
    }
    next
}

impl Conflicts {
    // Inner: how many there are.
    pub fn count(&self) -> u32
        ensures { (3 * result ≡ length (records_of self.now)) × (result ≤ 4096) }
    {
        self.rows[..self.firsts]
            .iter()
            .map(|row| row_count(*row))
            .sum()
    }

    // Inner: writes their records from place at on; the place behind them.
    pub fn write(&self, out: &mut [u8], at: usize) -> usize
        requires { at + length (records_of self.now) ≤ length out.old }
        ensures { (result ≡ at + length (records_of self.now)) × (out.new ≡ sets out.old at (records_of self.now)) }
    {
        let kind = u8::from(self.kind);
        let mut next = at;
        for (i, row) in self.rows[..self.firsts].iter().enumerate() {
            next = write_row(out, next, kind, i as u8, *row);
        }
        next
    }
}

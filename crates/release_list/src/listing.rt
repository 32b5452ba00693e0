// What the program prints.
ghost use Rattle.std.specs.Prelude.{◌≡◌, ◌≤◌, length};
ghost use Rattle.release_list.specs.Text.{context_of, Listed, WholeListed};
ghost use Rattle.release_list.specs.Writing.{IsBlank, SameBuffer, ReportListed};

use crate::text::Page;
use reader::{Refusal, Table};
use weights::Context;

// The context in the first six bytes of the input: minute (2 bytes), day, zone (1 byte each), date (2 bytes).
fn context_of(input: &[u8]) -> Context
    requires { 6 ≤ length input.now }
    ensures { result ≡ context_of input.now }
{
    Context {
        minute: u32::from(reader::bytes::get16(input, 0)),
        day: u32::from(input[2]),
        zone: u32::from(input[3]),
        date: u32::from(reader::bytes::get16(input, 4)),
    }
}

// The report on a base as text. 768 bytes hold sixteen lines of at most 47 bytes and a last one.
fn put_report(page: &mut Page<'_>, base: &[u8], at: Context)
    requires { IsBlank page.old }
    ensures same { SameBuffer page.old page.new }
    ensures text { ReportListed base.now at page.old.out.now page.new.out.now page.new.len }
{
    // 13 bytes for each of 16 permissions
    let mut parts = [0u8; 208];
    match report::report(base, at, &mut parts) {
        Ok(count) => {
            let permissions = reader::table(base, Table::Permissions as usize).len() / 2;
            page.put_lines(&parts, permissions as u8);
            page.put_count(b"releasable ", count as u8);
        }
        Err(refused) => page.put_count(b"refused ", refused.refusal.into()),
    }
}

// The text for an input.
fn put_listing(page: &mut Page<'_>, input: &[u8])
    requires { IsBlank page.old }
    ensures same { SameBuffer page.old page.new }
    ensures text { Listed input.now page.old.out.now page.new.out.now page.new.len }
{
    if input.len() < 6 {
        page.put_count(b"refused ", Refusal::BaseLength.into());
    } else {
        put_report(page, &input[6..], context_of(input));
    }
}

// Inner: all that the program prints, in the first bytes of `out`; how many. `input` is its buffer, of which `read`
// bytes were read: 6 of context, 2,460 of base, and one more, by which a longer base is seen. The number stands
// beside the buffer, since the promise needs the buffer's own length: only fewer bytes than that are the whole input.
pub fn listing(input: &[u8], read: usize, out: &mut [u8]) -> usize
    requires { (length input.now ≡ 2467) × (read ≤ 2467) × (768 ≤ length out.old) }
    ensures { WholeListed input.now read out.old out.new result }
{
    let mut page = Page { out, len: 0 };
    put_listing(&mut page, &input[..read]);
    page.len
}

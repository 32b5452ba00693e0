// The text of a report, written behind what stands on a page. By hand and not by `write!`: what a Display promises of
// its text is of a call that succeeds, and nothing promises that one does; here each text has room, and none fails.
ghost use Rattle.std.specs.Prelude.{◌++◌};
ghost use Rattle.release_list.specs.Text.{decimal, count_text, entry_text, line_text};
ghost use Rattle.release_list.specs.Writing.{HasRoom, Put, standing_text, Rising, Parts, lines_text};

// A buffer, and how much of it holds text. The length stands beside it since the buffer is lent, and nothing allocated.
#[derive(Drop)]
pub struct Page<'a> {
    pub out: &'a mut [u8],
    pub len: usize,
}

impl Page<'_> {
    fn put(&mut self, bytes: &[u8])
        requires { HasRoom self.old bytes.now }
        ensures { Put bytes.now self.old self.new }
    {
        let end = self.len + bytes.len();
        self.out[self.len..end].copy_from_slice(bytes);
        self.len = end;
    }

    // A number in decimal.
    fn put_decimal(&mut self, n: u8)
        requires { HasRoom self.old (decimal n) }
        ensures { Put (decimal n) self.old self.new }
    {
        let digits = [b'0' + n / 100, b'0' + n / 10 % 10, b'0' + n % 10];
        let zeros = usize::from(n < 10) + usize::from(n < 100);
        self.put(&digits[zeros..]);
    }

    // Words and a number.
    fn put_number(&mut self, words: &[u8], n: u8)
        requires { HasRoom self.old (words.now ++ decimal n) }
        ensures { Put (words.now ++ decimal n) self.old self.new }
    {
        self.put(words);
        self.put_decimal(n);
    }

    // Inner: a line of words and a number.
    pub fn put_count(&mut self, words: &[u8], n: u8)
        requires { HasRoom self.old (count_text words.now n) }
        ensures { Put (count_text words.now n) self.old self.new }
    {
        self.put_number(words, n);
        self.put(b"\n");
    }

    // An entry of a group: user/role, behind a blank.
    fn put_entry(&mut self, user: u8, role: u8)
        requires { HasRoom self.old (entry_text user role) }
        ensures { Put (entry_text user role) self.old self.new }
    {
        self.put_number(b" ", user);
        self.put_number(b"/", role);
    }

    // The entries of a group in the order in which they stand.
    fn put_entries(&mut self, group: &[u8])
        requires { HasRoom self.old (standing_text group.now) }
        ensures { Put (standing_text group.now) self.old self.new }
    {
        for entry in group.chunks_exact(2) {
            self.put_entry(entry[0], entry[1]);
        }
    }

    // The line of permission p with k approvers; the group stands by rising user. k is the part's own byte: by the
    // group's length it would be a cast, and this would have to ask that the length is small.
    fn put_line(&mut self, p: u8, k: u8, group: &[u8])
        requires { Rising group.now × HasRoom self.old (line_text p k group.now) }
        ensures { Put (line_text p k group.now) self.old self.new }
    {
        self.put_number(b"permission ", p);
        self.put_number(b": ", k);
        self.put_entries(group);
        self.put(b"\n");
    }

    // Inner: the lines of n parts of 13 bytes. n stands beside the parts: by a length cut to them p would be a cast,
    // the length would have to be asked small, and each part of the cut shown to be that of the report.
    pub fn put_lines(&mut self, parts: &[u8], n: u8)
        requires { Parts parts.now n × HasRoom self.old (lines_text parts.now n) }
        ensures { Put (lines_text parts.now n) self.old self.new }
    {
        for (p, part) in (0..n).zip(parts.chunks_exact(13)) {
            let k = part[0];
            self.put_line(p, k, &part[1..1 + 2 * usize::from(k)]);
        }
    }
}

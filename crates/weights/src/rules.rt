// The rules of a resolution list, kept beside the setting.
ghost use Rattle.std.specs.Prelude.{◌≡◌, ◌≤◌, length, take};

// At most three rules, in their order: a length beside them, for nothing is allocated.
#[derive(Clone, Copy)]
pub struct Rules {
    bytes: [u8; 3],
    listed: usize,
    pub ghost room: { listed ≤ length bytes },
}

impl Rules {
    // Inner: the rules of a list of at most three.
    pub fn of(list: &[u8]) -> Rules
        requires { length list.now ≤ 3 }
        ensures { take result.listed result.bytes ≡ list.now }
    {
        Rules {
            bytes: resolution::rules_of(list),
            listed: list.len(),
        }
    }

    // Inner: the rules as a list.
    pub fn as_slice(&self) -> &[u8]
        ensures { result.now ≡ take self.now.listed self.now.bytes }
    {
        &self.bytes[..self.listed]
    }
}

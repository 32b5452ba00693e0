// The records of exclusions.
ghost use Rattle.std.specs.Prelude.{◌≡◌, length};
ghost use Rattle.conflicts.specs.Exclusions.{exclusion_of};

// What a record says: two roles that exclude each other, or two permissions.
#[derive(Clone, Copy)]
pub enum Exclusion {
    Roles(u8, u8),
    Permissions(u8, u8),
}

impl Exclusion {
    // Inner: reads a record: every kind but 0 as two permissions; behind the check that is kind 1.
    pub fn read(bytes: &[u8]) -> Exclusion
        requires { length bytes.now ≡ 3 }
        ensures { result ≡ exclusion_of bytes.now 0 }
    {
        if bytes[0] == 0 {
            Exclusion::Roles(bytes[1], bytes[2])
        } else {
            Exclusion::Permissions(bytes[1], bytes[2])
        }
    }
}

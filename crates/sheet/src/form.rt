// A sheet as 14 bytes, for C and for whoever keeps it.
ghost use Rattle.std.specs.Prelude.{◌≡◌};
ghost use Rattle.sheet.specs.Form.{bytes_of, sheet_of};

use crate::Sheet;

// Inner: the sheet that the bytes are.
impl From<&[u8; 14]> for Sheet {
    ghost from_gives = { λ bytes sheet. sheet ≡ sheet_of bytes.now };

    fn from(bytes: &[u8; 14]) -> Sheet {
        let mut entries = [0; 12];
        entries.copy_from_slice(&bytes[2..]);
        Sheet {
            permission: bytes[0],
            count: bytes[1],
            entries,
        }
    }
}

// Inner: the sheet's bytes.
impl From<Sheet> for [u8; 14] {
    ghost from_gives = { λ sheet bytes. bytes ≡ bytes_of sheet };

    fn from(sheet: Sheet) -> [u8; 14] {
        let mut bytes = [0; 14];
        bytes[0] = sheet.permission;
        bytes[1] = sheet.count;
        bytes[2..].copy_from_slice(&sheet.entries);
        bytes
    }
}

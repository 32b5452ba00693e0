// Who may stand beside a requester.
ghost use Rattle.vouch.specs.Beside.{Named, Vouching, OthersOf};

use crate::register::Statement;
use std::array;
use weights::sets;

// Inner: for each permission the set of the users who vouch for the requester on the date.
pub fn users_vouching(register: &[u8], requester: u8, threshold: u32, date: u32) -> [u32; 16]
    requires { Named register.now }
    ensures { Vouching register.now threshold date requester result }
{
    let mut vouching = [0u32; 16];
    // By number: each statement changes the set of its permission.
    for i in 0..register.len() / 8 {
        let statement = Statement::of(register, i);
        if statement.serves(requester, threshold, date) {
            vouching[usize::from(statement.permission)] |= sets::bit(statement.issuer);
        }
    }
    vouching
}

// Inner: the sets of roles of the users who may stand beside the requester: of those who vouch, but not of the
// requester once more.
pub fn others(sets: &[u8; 24], vouching: u32, requester: u8) -> [u8; 24]
    ensures { OthersOf sets.now vouching requester result }
{
    array::from_fn(|u| if u != usize::from(requester) && sets::in_set(vouching, u as u8) {
        sets[u]
    } else {
        0
    })
}

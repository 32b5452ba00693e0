// Membership: a user's parameter against the roles' identity codes. `roles ≤ 8` is a clause: a type of it
// would be named more often than it is said. Users and roles come as two, as the definitions take them.
ghost use Rattle.std.specs.Prelude.{true, ◌≡◌, ◌/◌, ◌≤◌, ◌<◌};
ghost use Rattle.reader.specs.Codes.{codes, code_of, parameter_ok, code_divides, held_by, roles_read, parameter_answer};
ghost use Rattle.reader.specs.Refusals.{answer_from};

use crate::{Refusal, Refused, bytes};

// The identity codes of roles 0 to 7.
const CODES: [u32; 8] = [3, 5, 7, 11, 13, 17, 19, 23];

// Their inverses modulo 2^32: code times inverse is 1 there. No pairs with the codes: `CODES`, by role, is the list of
// the definition, `codes`.
const INVERSES: [u32; 8] = [
    2863311531, 3435973837, 3067833783, 3123612579, 3303820997, 4042322161, 678152731, 3921491879,
];

// The code of role r divides the parameter x.
fn code_divides(r: usize, x: u32) -> bool
    requires { r < 8 }
    ensures { result ≡ code_divides r x }
{
    x % CODES[r] == 0
}

// The quotient of x and the code of role r, which divides it. A multiple of the code, times the code's inverse modulo
// 2^32, is the quotient modulo 2^32, and the quotient is below 2^32.
fn quotient(r: usize, x: u32) -> u32
    requires { (r < 8) × (code_divides r x ≡ true) }
    ensures { result ≡ x / code_of r }
{
    x.wrapping_mul(INVERSES[r])
}

// Tries the codes of the roles below `roles` on the parameter, in role order: one that divides the rest is divided out.
// Ends as soon as the rest is 1: then the parameter is the product of different codes.
fn try_codes(x: u32, roles: u8) -> Result<u32, Refused>
    requires { roles ≤ 8 }
    ensures { answer_from result ≡ parameter_answer roles x }
{
    let mut rest = x;
    let mut count: u32 = 0;
    // By role, as document 01 asks: it indexes two tables.
    for r in 0..usize::from(roles) {
        if rest == 1 {
            return Ok(count);
        }
        count += 1;
        if code_divides(r, rest) {
            rest = quotient(r, rest);
        }
    }
    if rest != 1 {
        return Err(Refused {
            refusal: Refusal::Users,
            count,
        });
    }
    Ok(count)
}

// Inner: the parameter is the product of different codes of roles below `roles`.
pub fn parameter_ok(x: u32, roles: u8) -> bool
    requires { roles ≤ 8 }
    ensures { result ≡ parameter_ok roles x }
{
    try_codes(x, roles).is_ok()
}

// Roles above 8 are read as 8.
fn roles_read(roles: u32) -> u8
    ensures { (result ≡ roles_read roles) × (result ≤ 8) }
{
    roles.min(8) as u8
}

// Entry point: the check of one parameter with so many roles: 0 or 5; both carry how many codes were tried.
pub fn check_parameter(parameter: u32, roles: u32) -> Result<u32, Refused>
    ensures { answer_from result ≡ parameter_answer roles parameter }
{
    try_codes(parameter, roles_read(roles))
}

// Inner: membership; false where the user or the role isn't there.
pub fn held_by(users: &[u8], roles: u8, user: usize, role: usize) -> bool
    requires { roles ≤ 8 }
    ensures { result ≡ held_by roles users.now user role }
{
    user < users.len() / 8
        && role < usize::from(roles)
        && code_divides(role, bytes::get32(users, 8 * user))
}

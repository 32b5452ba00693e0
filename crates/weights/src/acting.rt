// Who may act in a role: whoever holds it, or a role senior to it.
ghost use Rattle.std.specs.Prelude.{◌≡◌, ◌≤◌, List, ℕ};
ghost use Rattle.folds.specs.Sets.{set_below};
ghost use Rattle.reader.specs.Tables.{hierarchy, table_of, role_count, user_count};
ghost use Rattle.reader.specs.Rules.{refusal_of};
ghost use Rattle.weights.specs.Acting.{may_act};
ghost use Rattle.weights.specs.Setting.{Juniors, ActingSets};

use crate::{seniority, sets};
use reader::{Base, Table, codes};
use std::marker::Model;

// An accepted base with each role's juniors, seen as the base's bytes.
#[derive(Drop)]
pub struct Acting<'a> {
    base: &'a Base<'a>,
    juniors: [u8; 8],
}

impl<'a> Model for Acting<'a> {
    ghost Value = { List ℕ };

    ghost view = { λ acting. acting.base.now };

    ghost invariant = { λ acting. Juniors (table_of acting.base.now hierarchy) acting.juniors };
}

impl<'a> Acting<'a> {
    // Inner: who may act, by the base's juniors worked out before.
    pub fn by(base: &'a Base<'a>, juniors: [u8; 8]) -> Acting<'a>
        requires { Juniors (table_of base.now hierarchy) juniors }
        ensures { result ≡ base.now }
    {
        Acting { base, juniors }
    }

    // Inner: who may act, by the base's juniors worked out here.
    pub fn of(base: &'a Base<'a>) -> Acting<'a>
        ensures { result ≡ base.now }
    {
        Acting::by(base, crate::juniors_of_base(base))
    }

    // Inner: the juniors of each role.
    pub fn juniors(&self) -> [u8; 8]
        ensures { Juniors (table_of self.now hierarchy) result }
    {
        self.juniors
    }

    // Inner: R. This and the number of users are the base's, given here too: `Members::of` is lent this value alone.
    pub fn role_count(&self) -> u8
        ensures { (result ≡ role_count self.now) × (result ≤ 8) }
    {
        self.base.role_count()
    }

    // Inner: the number of users.
    pub fn user_count(&self) -> usize
        ensures { (result ≡ user_count self.now) × (result ≤ 24) }
    {
        self.base.user_count()
    }

    // Inner: the set of the roles in which the user may act: the roles held and their juniors.
    pub fn roles(&self, user: usize) -> u8
        ensures roles { result ≡ set_below 8 (may_act self.now user) }
        ensures accepted { refusal_of self.now ≡ 0 }
    {
        let juniors = self.juniors;
        let users = self.base.part(Table::Users);
        let roles = self.base.role_count();
        (0..8u8).fold(0, |set, s| {
            if codes::held_by(users, roles, user, s as usize) {
                set | seniority::with_juniors(s, juniors)
            } else {
                set
            }
        })
    }

    // Inner: for each of 24 users the set of the roles in which the user may act; one that isn't there acts in none.
    pub fn sets(&self) -> [u8; 24]
        ensures { ActingSets self.now result }
    {
        let mut sets = [0; 24];
        // A loop, for `array::from_fn` would ask for all 24.
        for (u, set) in sets[..self.user_count()].iter_mut().enumerate() {
            *set = self.roles(u);
        }
        sets
    }

    // Inner: the user may act in the role; neither need be there.
    pub fn may_act(&self, user: usize, role: usize) -> bool
        ensures { result ≡ may_act self.now user role }
    {
        let roles = self.roles(user);
        role < 8 && sets::in_set(roles as u32, role as u8)
    }
}

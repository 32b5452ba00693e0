// The policy that counts for each role and permission: one pass over A.
ghost use Rattle.std.specs.Prelude.{◌≡◌, cond, ◌⊎◌, ◌+◌, ◌*◌, ◌≤◌, ◌<◌, get_or, set};
ghost use Rattle.reader.specs.Fields.{policy_weight};
ghost use Rattle.reader.specs.Tables.{policies, record_count};
ghost use Rattle.weights.specs.Setting.{in_force_by, taken_up, AreChosen};

use crate::chosen::Chosen;
use crate::sets;
use reader::{Policies, bytes};

// The context number holds, by the set of those that do. 255 is no `Option`: the definitions take the number.
fn in_force(contexts: u32, number: u8) -> bool
    requires { (number ≤ 15) ⊎ (number ≡ 255) }
    ensures { result ≡ in_force_by contexts number }
{
    number == 255 || sets::in_set(contexts, number)
}

// Inner: where the weight of a role for a permission stands.
pub fn place_of(permission: u8, role: u8) -> usize
    requires { (permission < 16) × (role < 8) }
    ensures { (result ≡ 8 * permission + role) × (result < 128) }
{
    8 * bytes::wide(permission) + bytes::wide(role)
}

// Of each role and permission the policy that counts so far, by its number, and its weight; 0 where none does. Two
// arrays, so that the weights are handed on as they stand.
#[derive(Clone, Copy)]
struct Kept {
    policy: [u8; 128],
    weight: [u8; 128],
}

impl Kept {
    // Takes up policy i at a place: from now on it counts there if none did, or if it goes before the one that did.
    fn take_up(&mut self, place: usize, list: &[u8], a: &Policies<'_>, i: usize)
        requires { (place < 128) × (i < 64) × (i < record_count policies a.now)
            × ((get_or self.old.weight place 0 ≡ 0 → ⊥) →
            get_or self.old.policy place 0 < record_count policies a.now) }
        ensures { (self.new.policy ≡
            cond (taken_up list.now a.now i self.old.policy self.old.weight place)
            (set self.old.policy place i) self.old.policy) ×
            (self.new.weight ≡
            cond (taken_up list.now a.now i self.old.policy self.old.weight place)
            (set self.old.weight place (policy_weight a.now i)) self.old.weight) }
    {
        if self.weight[place] == 0
            || resolution::goes_before(list, a.bytes(), i, bytes::wide(self.policy[place]))
        {
            self.policy[place] = i as u8;
            self.weight[place] = a.weight(i);
        }
    }
}

// Inner: the weights of the policies that count by the rules of a list.
pub fn choose(a: &Policies<'_>, contexts: u32, list: &[u8]) -> Chosen
    ensures { AreChosen list.now contexts a.now (record_count policies a.now) result.own result.inh }
{
    let mut any = Kept {
        policy: [0; 128],
        weight: [0; 128],
    };
    let mut one = any;
    // By number, since a policy's fields are read by its number. No fold: its closure would hand on 512 bytes a turn,
    // and say no more than this.
    for i in 0..a.count() {
        if in_force(contexts, a.context(i)) {
            let place = place_of(a.permission(i), a.role(i));
            any.take_up(place, list, a, i);
            if a.is_inherited(i) {
                one.take_up(place, list, a, i);
            }
        }
    }
    Chosen {
        own: any.weight,
        inh: one.weight,
    }
}

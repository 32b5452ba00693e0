// The weights that count, of each role and permission.
ghost use Rattle.std.specs.Prelude.{◌≡◌, List, ℕ, ◌<◌};
ghost use Rattle.reader.specs.Tables.{hierarchy, table_of};
ghost use Rattle.reader.specs.Rules.{refusal_of};
ghost use Rattle.weights.specs.declared.Context.{Context};
ghost use Rattle.weights.specs.Setting.{Juniors, Light, ChosenBy, AreWeights};

use crate::{inherited, policies};

// Weights of policies of any type (own) and of type 1 (inh), at 8 times the permission and the role; none is above 5.
// Flat, for of arrays of arrays the facts would be of lists of lists; and two, for each is made and read by itself.
#[derive(Clone, Copy)]
pub struct Chosen {
    pub own: [u8; 128],
    pub inh: [u8; 128],
    pub ghost light: { Light own × Light inh },
}

impl Chosen {
    // Inner: the weights of all roles for one permission, with the juniors of an accepted base.
    pub fn role_weights(&self, juniors: [u8; 8], permission: u8) -> [u8; 8]
        requires { permission < 16 }
        ensures { (rules b : List ℕ) (at : Context) → refusal_of b ≡ 0 →
            ChosenBy rules b at self.now.own self.now.inh → Juniors (table_of b hierarchy) juniors →
            AreWeights rules b at permission result }
    {
        let mut w = inherited::own_weights(&self.own, permission);
        // Each junior adds to the weights of its seniors.
        let at = policies::place_of(permission, 0);
        for (j, x) in self.inh[at..at + 8].iter().enumerate() {
            inherited::hand_on(&mut w, juniors, j as u8, *x);
        }
        w
    }
}

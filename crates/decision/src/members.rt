// A group that passed 12 to 15.
ghost use Rattle.std.specs.Prelude.{◌≡◌, ℕ, IfOk, List};
ghost use Rattle.reader.specs.Refusals.{number_of};
ghost use Rattle.decision.specs.Decision.{members_of};
ghost use Rattle.decision.specs.Members.{Seated};

use crate::groups;
use reader::Refusal;
use std::marker::Model;
use weights::acting::Acting;

// Made of a group that 12 to 15 don't refuse, and seen as its bytes; of what they asked it keeps that it has at most
// twelve, and that its roles are below 8.
#[derive(Drop)]
pub struct Members<'a> {
    group: &'a [u8],
}

impl<'a> Model for Members<'a> {
    ghost Value = { List ℕ };

    ghost view = { λ members. members.group.now };

    ghost invariant = { λ members. Seated members.group.now };
}

impl<'a> Members<'a> {
    // Inner: refusals 12 to 15 of a group, by who may act in a role, or the group as one that passed them.
    pub fn of(acting: &Acting<'_>, group: &'a [u8]) -> Result<Members<'a>, Refusal>
        ensures number { number_of result ≡ members_of acting.now group.now }
        ensures same { IfOk result (λ members. members ≡ group.now) }
        ensures seated { IfOk result (λ members. Seated members) }
    {
        if groups::length_refused(group) {
            return Err(Refusal::GroupLength);
        }
        if groups::some_unknown(group, acting.user_count(), acting.role_count()) {
            return Err(Refusal::Unknown);
        }
        if groups::some_twice(group) {
            return Err(Refusal::Twice);
        }
        if groups::some_ineligible(group, acting) {
            return Err(Refusal::Ineligible);
        }
        Ok(Members { group })
    }

    // Inner: its bytes.
    pub fn bytes(&self) -> &'a [u8]
        ensures bytes { result.now ≡ self.now }
        ensures seated { Seated self.now }
    {
        self.group
    }
}

// Contexts, seniority and weights: what a base and a context fix, each role's weight for a permission, and who may act
// in a role.
#![tactic(auto)]

ghost use Rattle.std.specs.Prelude.{◌≡◌, [], ◌≤◌, length};
ghost use Rattle.reader.specs.Tables.{hierarchy, table_of};
ghost use Rattle.weights.specs.Setting.{Juniors, rules_of, FixedBy, ChosenBy};

pub mod acting;
pub mod chosen;
pub mod contexts;
mod inherited;
pub mod operators;
mod policies;
mod rules;
pub mod seniority;
pub mod sets;

pub use chosen::Chosen;
use reader::{Base, Table};
pub use rules::Rules;

// A context: parameters 0, 1 and 2 are the minute, the day and the zone. The date is no parameter of conditions: users'
// days are held against it.
#[derive(Clone, Copy)]
pub struct Context {
    pub minute: u32,
    pub day: u32,
    pub zone: u32,
    pub date: u32,
}

// What one base and context fix, with that context: the context numbers that hold, as a set, and each role's juniors,
// a set a role; with them the rules of a resolution list, none without one. Base and setting stay two values: of a type
// of both each clause would say `setting.now.base` and `setting.now.fixed` for `base.now` and `s`.
#[derive(Clone, Copy)]
pub struct Fixed {
    pub at: Context,
    pub contexts: u32,
    pub juniors: [u8; 8],
    pub rules: Rules,
}

// Inner: the juniors of each role of an accepted base.
pub fn juniors_of_base(base: &Base<'_>) -> [u8; 8]
    ensures { Juniors (table_of base.now hierarchy) result }
{
    seniority::juniors(base.part(Table::Hierarchy))
}

// Inner: the setting of an accepted base without a list.
pub fn setting(base: &Base<'_>, at: Context) -> Fixed
    ensures { (result.at ≡ at) × (rules_of result ≡ []) × FixedBy base.now result }
{
    setting_by(base, at, &[])
}

// Inner: the setting of an accepted base with a list of at most three rules.
pub fn setting_by(base: &Base<'_>, at: Context, list: &[u8]) -> Fixed
    requires { length list.now ≤ 3 }
    ensures { (result.at ≡ at) × (rules_of result ≡ list.now) × FixedBy base.now result }
{
    let contexts = contexts::holding(base.part(Table::Contexts), at);
    let juniors = juniors_of_base(base);
    Fixed {
        at,
        contexts,
        juniors,
        rules: Rules::of(list),
    }
}

// Inner: for each role and permission of an accepted base, of which s is a setting, the weight of the policy that
// counts by the rules of s, or 0.
pub fn choose(base: &Base<'_>, s: Fixed) -> Chosen
    requires { FixedBy base.now s }
    ensures { ChosenBy (rules_of s) base.now s.at result.own result.inh }
{
    policies::choose(&base.policies(), s.contexts, s.rules.as_slice())
}

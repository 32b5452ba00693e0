// Which context numbers are related: some one context satisfies both.
#![tactic(auto)]

mod clauses;
pub mod slots;

// The tables of a base.

// The tables, in the order of their places in the base.
#[derive(Clone, Copy, PartialEq, Eq)]
pub enum Table {
    Hierarchy = 0,
    Users = 1,
    Permissions = 2,
    Clauses = 3,
    Contexts = 4,
    Policies = 5,
    Exclusions = 6,
}

// The policies of an accepted base, read field by field, by number, as the definitions name the fields: of a struct of
// the five fields a clause would have to say of which number it is.
ghost use Rattle.std.specs.Prelude.{◌≡◌, false, ◌⊎◌, ◌≤◌, ◌<◌, List, ℕ, eqb};
ghost use Rattle.reader.specs.Tables.{policies, table_of, record_count};
ghost use Rattle.reader.specs.Fields.{policy_role, policy_permission, policy_weight, policy_type, policy_context};
ghost use Rattle.reader.specs.Rules.{policies_bad, refusal_of};

use crate::{Base, Table};
use std::marker::Model;

// A table A that passes the check with 8 roles and 16 permissions, seen as its bytes.
#[derive(Drop)]
pub struct Policies<'a> {
    table: &'a [u8],
}

impl<'a> Model for Policies<'a> {
    ghost Value = { List ℕ };

    ghost view = { λ a. a.table.now };

    ghost invariant = { λ a. (policies_bad 8 16 a.table.now ≡ false) × (record_count policies a.table.now ≤ 64) };
}

impl<'a> Base<'a> {
    // Inner: the policies.
    pub fn policies(&self) -> Policies<'a>
        ensures policies { result ≡ table_of self.now policies }
        ensures accepted { refusal_of self.now ≡ 0 }
    {
        Policies {
            table: self.part(Table::Policies),
        }
    }
}

impl<'a> Policies<'a> {
    // Inner: how many there are; they passed the check.
    pub fn count(&self) -> usize
        ensures count { (result ≡ record_count policies self.now) × (result ≤ 64) }
        ensures passed { policies_bad 8 16 self.now ≡ false }
    {
        self.table.len() / 8
    }

    // Inner: the table's bytes; they passed the check.
    pub fn bytes(&self) -> &'a [u8]
        ensures bytes { result.now ≡ self.now }
        ensures passed { policies_bad 8 16 self.now ≡ false }
    {
        self.table
    }

    // Inner: the role of policy i.
    pub fn role(&self, i: usize) -> u8
        requires { i < record_count policies self.now }
        ensures { (result ≡ policy_role self.now i) × (result < 8) }
    {
        let a = self.table;
        a[8 * i]
    }

    // Inner: its permission.
    pub fn permission(&self, i: usize) -> u8
        requires { i < record_count policies self.now }
        ensures { (result ≡ policy_permission self.now i) × (result < 16) }
    {
        let a = self.table;
        a[8 * i + 1]
    }

    // Inner: its weight.
    pub fn weight(&self, i: usize) -> u8
        requires { i < record_count policies self.now }
        ensures { (result ≡ policy_weight self.now i) × (result ≤ 5) }
    {
        let a = self.table;
        a[8 * i + 2]
    }

    // Inner: whether its type is 1: the seniors of its role inherit it.
    pub fn is_inherited(&self, i: usize) -> bool
        requires { i < record_count policies self.now }
        ensures { (result ≡ eqb (policy_type self.now i) 1) × (policy_type self.now i ≤ 1) }
    {
        let a = self.table;
        a[8 * i + 3] == 1
    }

    // Inner: its context number. No `Option`: the definitions take the number, 255 too, and each clause would say
    // `unwrap_or number 255` for it.
    pub fn context(&self, i: usize) -> u8
        requires { i < record_count policies self.now }
        ensures { (result ≡ policy_context self.now i) × ((result ≤ 15) ⊎ (result ≡ 255)) }
    {
        let a = self.table;
        a[8 * i + 4]
    }
}

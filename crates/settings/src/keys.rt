//! One key of a table.
ghost use Rattle.std.specs.Prelude.{◌≡◌, ◌≤◌, IfOk, option_map};
ghost use Rattle.toml.specs.Data.{as_integer};
ghost use Rattle.toml.specs.View.{view, table_view};
ghost use Rattle.settings.specs.Faults.{seen};
ghost use Rattle.settings.specs.Keys.{given_at, row_of, whole_of, flag_of, number_of, members_in};
ghost use Rattle.settings.specs.Keys.{section_of, sections_seen};

use crate::fault::WrongKey;
use toml::{Table, Value};

/// A setting that is a whole number from `low` to `high`. A missing one has the default, which is
/// judged likewise.
#[derive(Clone, Copy)]
pub struct Whole {
    pub key: &'static str,
    /// What a fault names.
    pub path: &'static str,
    pub low: u32,
    pub high: u32,
    pub default: Option<u32>,
}

/// The table at `key`, if it is there. `first` is its first key, which is the wrong one if it is no
/// table.
pub fn section<'a>(
    root: &'a Table,
    key: &str,
    first: &'static str,
) -> Result<Option<&'a Table>, WrongKey>
    ensures { sections_seen result ≡ section_of key.now first.entry.now (table_view root.now) }
{
    match given(Some(root), key) {
        None => Ok(None),
        Some(value) => match value.as_table() {
            Some(table) => Ok(Some(table)),
            None => Err(WrongKey { path: first }),
        },
    }
}

/// The value at `key`, if both the table and the key are there.
#[tactic(auto, using(toml::proofs::Views::table_get))]
pub fn given<'a>(table: Option<&'a Table>, key: &str) -> Option<&'a Value>
    ensures { option_map (λ v. view v.now) result ≡ given_at key.now (members_in table.entry) }
{
    match table {
        Some(table) => table.get(key),
        None => None,
    }
}

/// A whole number of 32 bits.
fn whole_number(value: &Value) -> Option<u32>
    ensures { result ≡ number_of (as_integer (view value.now)) }
{
    // `1.0` is none (docs/DECISIONS.md, "Whole numbers").
    match value.as_integer() {
        Some(n) => u32::try_from(n).ok(),
        None => None,
    }
}

impl Whole {
    /// The number that the table gives, or the default.
    pub fn read(&self, table: Option<&Table>) -> Result<u32, WrongKey>
        ensures value { seen result ≡ whole_of (row_of self.now) (members_in table.entry) }
        ensures range { IfOk result (λ n. (self.now.low ≤ n) × (n ≤ self.now.high)) }
    {
        let value = match given(table, self.key) {
            Some(value) => whole_number(value),
            None => self.default,
        };
        match value {
            Some(n) if self.low <= n && n <= self.high => Ok(n),
            _ => Err(WrongKey { path: self.path }),
        }
    }
}

/// A setting that is true or false, with the default `false`.
#[derive(Clone, Copy)]
pub struct Flag {
    pub key: &'static str,
    /// What a fault names.
    pub path: &'static str,
}

impl Flag {
    /// What the table gives, or `false`.
    pub fn read(&self, table: Option<&Table>) -> Result<bool, WrongKey>
        ensures { seen result
            ≡ flag_of self.now.key.now self.now.path.now (members_in table.entry) }
    {
        match given(table, self.key) {
            // A key that isn't there is no fault; one of another type is.
            None => Ok(false),
            Some(value) => value.as_bool().ok_or(WrongKey { path: self.path }),
        }
    }
}

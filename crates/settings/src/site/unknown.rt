//! Keys that a site's file may not have.
ghost use Rattle.std.specs.Prelude.{◌≡◌, IfOk, option_map, string_bytes};
ghost use Rattle.toml.specs.View.{view, table_view, items_view};
ghost use Rattle.settings.specs.Unknown.{member_keys};
ghost use Rattle.settings.specs.SiteUnknown.{first_in, first_of, first_items, first_list};
ghost use Rattle.settings.specs.SiteUnknown.{first_under};
ghost use Rattle.settings.specs.SiteUnknown.{knows, knows_wish, prefix, unknown_key};
ghost use Rattle.settings.specs.declared.site.unknown.SiteTable.TheVariants.{Root};

use crate::keys::given;
use std::alloc::{AllocError, Global};
use toml::{Table, Value};

/// A table of the file: the file itself, or one in it.
#[derive(Clone, Copy)]
enum SiteTable {
    Root,
    Line,
    Station,
}

impl SiteTable {
    fn knows(self, key: &str) -> bool
        ensures { result ≡ knows self key.now }
    {
        match self {
            SiteTable::Root => knows_root(key),
            SiteTable::Line => key == "name",
            SiteTable::Station => matches!(key, "link" | "name"),
        }
    }

    /// What stands before a key of this table in its dotted path.
    fn prefix(self) -> &'static str
        ensures { result.now ≡ prefix self }
    {
        match self {
            SiteTable::Root => "",
            SiteTable::Line => "line.",
            SiteTable::Station => "station.",
        }
    }
}

fn knows_root(key: &str) -> bool
    ensures { result ≡ knows Root key.now }
{
    knows_wish(key) || matches!(key, "line" | "station")
}

/// Whether the key is one of what a run is to do.
fn knows_wish(key: &str) -> bool
    ensures { result ≡ knows_wish key.now }
{
    matches!(
        key,
        "allow"
            | "status"
            | "state"
            | "state_or_stop"
            | "log"
            | "log_severity"
            | "redial"
            | "record"
    )
}

/// The dotted path of the first unknown key: one of the file itself, of the line, or of a station,
/// each in the order of their octets.
pub(crate) fn unknown_key(alloc: Global, root: &Table) -> Result<Option<String>, AllocError>
    ensures { IfOk result (λ found. option_map string_bytes found
        ≡ unknown_key (table_view root.now)) }
{
    if let Some(path) = first_in(alloc, SiteTable::Root, root)? {
        return Ok(Some(path));
    }
    if let Some(path) = first_under(alloc, SiteTable::Line, given(Some(root), "line"))? {
        return Ok(Some(path));
    }
    first_list(alloc, given(Some(root), "station"))
}

/// The first unknown key of a table.
#[tactic(auto, using(crate::proofs::SiteUnknownLemmas::keys_of_table))]
fn first_in(alloc: Global, section: SiteTable, table: &Table) -> Result<Option<String>, AllocError>
    ensures { IfOk result (λ found. option_map string_bytes found
        ≡ first_in section (member_keys (table_view table.now))) }
{
    let before = section.prefix();
    for key in table.keys() {
        if !section.knows(key.as_str()) {
            return Ok(Some(format!(in alloc; "{before}{key}")?));
        }
    }
    Ok(None)
}

/// The first unknown key of a value that is a table.
fn first_of(alloc: Global, section: SiteTable, value: &Value) -> Result<Option<String>, AllocError>
    ensures { IfOk result (λ found. option_map string_bytes found
        ≡ first_of section (view value.now)) }
{
    match value.as_table() {
        Some(table) => first_in(alloc, section, table),
        None => Ok(None),
    }
}

/// The same of a value that may be missing.
fn first_under(
    alloc: Global,
    section: SiteTable,
    value: Option<&Value>,
) -> Result<Option<String>, AllocError>
    ensures { IfOk result (λ found. option_map string_bytes found
        ≡ first_under section (option_map (λ v. view v.now) value.entry)) }
{
    match value {
        Some(value) => first_of(alloc, section, value),
        None => Ok(None),
    }
}

/// The first unknown key of the stations.
fn first_list(alloc: Global, value: Option<&Value>) -> Result<Option<String>, AllocError>
    ensures { IfOk result (λ found. option_map string_bytes found
        ≡ first_list (option_map (λ v. view v.now) value.entry)) }
{
    let Some(value) = value else {
        return Ok(None);
    };
    match value.as_array() {
        Some(tables) => first_items(alloc, tables.as_slice()),
        None => Ok(None),
    }
}

#[tactic(auto, using(crate::proofs::SiteUnknownLemmas::items_end))]
fn first_items(alloc: Global, tables: &[Value]) -> Result<Option<String>, AllocError>
    ensures { IfOk result (λ found. option_map string_bytes found
        ≡ first_items (items_view tables.now)) }
{
    for table in tables {
        if let Some(path) = first_of(alloc, SiteTable::Station, table)? {
            return Ok(Some(path));
        }
    }
    Ok(None)
}

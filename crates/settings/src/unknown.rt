//! Keys that the settings don't know.
ghost use Rattle.std.specs.Prelude.{◌≡◌, ◌++◌, map, option_map, OnOk, IfOk, MatchOption, Contains};
ghost use Rattle.std.specs.Prelude.{All, [], false, string_bytes};
ghost use Rattle.std.specs.Ordering.{is_lt};
ghost use Rattle.std.specs.String.{string_cmp};
ghost use Rattle.toml.specs.View.{view, table_view, items_view};
ghost use Rattle.settings.specs.Unknown.{knows, knows_line, knows_size, prefix, member_keys};
ghost use Rattle.settings.specs.Unknown.{unknown_in, unknown_of, unknown_under, unknown_stations};
ghost use Rattle.settings.specs.Unknown.{unknown_items, unknown_paths, IsRefusedFor};
ghost use Rattle.settings.specs.declared.unknown.SettingsTable.TheVariants.{Root, Tcp, Station};
ghost use Rattle.settings.specs.declared.unknown.SettingsTable.TheVariants.{Live};

use crate::ConfigFault;
use crate::keys::given;
use std::alloc::{AllocError, Global};
use toml::{Table, Value};

/// A table of the settings: the file itself, or one in it.
#[derive(Clone, Copy)]
enum SettingsTable {
    Root,
    Line,
    Tcp,
    Station,
    Live,
}

impl SettingsTable {
    fn knows(self, key: &str) -> bool
        ensures { result ≡ knows self key.now }
    {
        match self {
            SettingsTable::Root => knows_root(key),
            SettingsTable::Line => knows_line(key),
            SettingsTable::Tcp => knows_tcp(key),
            SettingsTable::Station => knows_station(key),
            SettingsTable::Live => knows_live(key),
        }
    }

    /// What stands before a key of this table in its dotted path.
    fn prefix(self) -> &'static str
        ensures { result.now ≡ prefix self }
    {
        match self {
            SettingsTable::Root => "",
            SettingsTable::Line => "line.",
            SettingsTable::Tcp => "tcp.",
            SettingsTable::Station => "station.",
            SettingsTable::Live => "live.",
        }
    }
}

fn knows_root(key: &str) -> bool
    ensures { result ≡ knows Root key.now }
{
    matches!(key, "line" | "tcp" | "station" | "live")
}

fn knows_line(key: &str) -> bool
    ensures { result ≡ knows_line key.now }
{
    knows_size(key) || matches!(key, "answer_ms" | "retries" | "silence" | "burst" | "queue")
}

fn knows_size(key: &str) -> bool
    ensures { result ≡ knows_size key.now }
{
    matches!(key, "link" | "cause" | "ca" | "ioa")
}

fn knows_tcp(key: &str) -> bool
    ensures { result ≡ knows Tcp key.now }
{
    matches!(
        key,
        "k" | "w" | "t1_ms" | "t2_ms" | "t3_ms" | "select_ms" | "max_age_ms"
    )
}

fn knows_station(key: &str) -> bool
    ensures { result ≡ knows Station key.now }
{
    matches!(key, "address" | "ca" | "select")
}

fn knows_live(key: &str) -> bool
    ensures { result ≡ knows Live key.now }
{
    matches!(key, "line" | "listen")
}

/// Refuses a file with an unknown key, and names the one whose dotted path is the least in the
/// order of octets.
#[tactic(auto, using(crate::proofs::UnknownLemmas::least_of, crate::proofs::UnknownLemmas::none_of))]
pub(crate) fn refuse_unknown(alloc: Global, root: &Table) -> Result<(), ConfigFault>
    ensures { IsRefusedFor (unknown_paths (table_view root.now)) result }
{
    // The least one, since a table keeps no order of the file by which one could be chosen. Printed
    // as it is, joined by dots (docs/DECISIONS.md, "An unknown key").
    match least(unknown_paths(alloc, root)?) {
        None => Ok(()),
        Some(path) => Err(ConfigFault::Unknown(path)),
    }
}

/// The least of some texts.
fn least(paths: Vec<String>) -> Option<String>
    ensures { MatchOption result (paths.items ≡ [])
        (λ m. Contains paths.items m × All (λ x. is_lt (string_cmp x m) ≡ false) paths.items) }
{
    paths.into_iter().min()
}

/// The dotted paths of all unknown keys.
#[tactic(auto, using(crate::proofs::UnknownLemmas::keys_of_table))]
fn unknown_paths(alloc: Global, root: &Table) -> Result<Vec<String>, AllocError>
    ensures { IfOk result (λ paths.
        map string_bytes paths.items ≡ unknown_paths (table_view root.now)) }
{
    let mut paths = Vec::new(alloc);
    push_unknown(alloc, &mut paths, SettingsTable::Root, root)?;
    push_section(
        alloc,
        &mut paths,
        SettingsTable::Line,
        given(Some(root), "line"),
    )?;
    push_section(
        alloc,
        &mut paths,
        SettingsTable::Tcp,
        given(Some(root), "tcp"),
    )?;
    push_stations(alloc, &mut paths, root)?;
    push_section(
        alloc,
        &mut paths,
        SettingsTable::Live,
        given(Some(root), "live"),
    )?;
    Ok(paths)
}

/// Appends the dotted paths of a table's unknown keys.
#[tactic(auto, using(crate::proofs::UnknownLemmas::keys_of_table))]
fn push_unknown(
    alloc: Global,
    paths: &mut Vec<String>,
    section: SettingsTable,
    table: &Table,
) -> Result<(), AllocError>
    ensures { OnOk result (map string_bytes paths.new.items
        ≡ map string_bytes paths.old.items
        ++ unknown_in section (member_keys (table_view table.now))) }
{
    // A misspelt key would else be a default that nobody chose.
    let before = section.prefix();
    for key in table.keys() {
        if !section.knows(key.as_str()) {
            paths.push(format!(in alloc; "{before}{key}")?)?;
        }
    }
    Ok(())
}

/// Appends the unknown keys of a section, if it is there.
fn push_section(
    alloc: Global,
    paths: &mut Vec<String>,
    section: SettingsTable,
    value: Option<&Value>,
) -> Result<(), AllocError>
    ensures { OnOk result (map string_bytes paths.new.items
        ≡ map string_bytes paths.old.items
        ++ unknown_under section (option_map (λ v. view v.now) value.entry)) }
{
    match value {
        Some(value) => push_table(alloc, paths, section, value),
        None => Ok(()),
    }
}

/// Appends the unknown keys of a value that is a table.
fn push_table(
    alloc: Global,
    paths: &mut Vec<String>,
    section: SettingsTable,
    value: &Value,
) -> Result<(), AllocError>
    ensures { OnOk result (map string_bytes paths.new.items
        ≡ map string_bytes paths.old.items ++ unknown_of section (view value.now)) }
{
    match value.as_table() {
        Some(table) => push_unknown(alloc, paths, section, table),
        None => Ok(()),
    }
}

fn push_stations(alloc: Global, paths: &mut Vec<String>, root: &Table) -> Result<(), AllocError>
    ensures { OnOk result (map string_bytes paths.new.items
        ≡ map string_bytes paths.old.items ++ unknown_stations (table_view root.now)) }
{
    let Some(value) = given(Some(root), "station") else {
        return Ok(());
    };
    match value.as_array() {
        Some(tables) => push_items(alloc, paths, tables.as_slice()),
        None => Ok(()),
    }
}

#[tactic(auto, using(crate::proofs::UnknownLemmas::items_end))]
fn push_items(alloc: Global, paths: &mut Vec<String>, tables: &[Value]) -> Result<(), AllocError>
    ensures { OnOk result (map string_bytes paths.new.items
        ≡ map string_bytes paths.old.items ++ unknown_items (items_view tables.now)) }
{
    for table in tables {
        push_table(alloc, paths, SettingsTable::Station, table)?;
    }
    Ok(())
}

//! A whole file of settings.
ghost use Rattle.std.specs.Prelude.{ℕ, List, MatchResult, true};
ghost use Rattle.toml.specs.View.{table_view};
ghost use Rattle.settings.specs.Settings.{values_of, gateway_values, known_settings, known_live};
ghost use Rattle.settings.specs.Settings.{live_values_of, IsKnownOf, IsReadOf, IsDocument};
ghost use Rattle.settings.specs.Settings.{IsRootFault, IsReadFor, IsReadOfText, IsLiveReadOfText};

use crate::ConfigFault;
use crate::fault::WrongKey;
use crate::keys::{given, section};
use crate::line::read_line;
use crate::live::{LiveSettings, judge_live, read_live};
use crate::stations::{first_wrong, read_stations};
use crate::tcp::read_tcp;
use crate::unknown::refuse_unknown;
use gateway::{Config, LineSettings};
use std::alloc::{AllocError, Global};
use toml::Table;

/// Reads the settings of a file. The first fault is answered: octets that are no TOML document,
/// then the first key that is missing or wrong, then the least key that isn't known; `NoMemory` can
/// come at any step. With `live` the file also has to say where a live run finds its line and its
/// control centre, as for [`read_live_config`], which answers these too.
pub fn read_config(alloc: Global, text: &[u8], live: bool) -> Result<Config, ConfigFault>
    ensures { IsReadFor live text.now result }
{
    // Whether the ends are needed, since `Config` knows none (docs/DECISIONS.md, "Whether live ends
    // are needed").
    if live {
        without_ends(read_live_config(alloc, text))
    } else {
        read_settings(alloc, text)
    }
}

/// What was read for a live run, without its ends.
#[tactic(auto, using(crate::proofs::SettingsLemmas::without_ends, crate::proofs::SettingsLemmas::fault_without_ends))]
fn without_ends(read: Result<(Config, LiveSettings), ConfigFault>) -> Result<Config, ConfigFault>
    ensures { (text : List ℕ) → IsLiveReadOfText text read → IsReadFor true text result }
{
    match read {
        Ok((config, _ends)) => Ok(config),
        Err(fault) => Err(fault),
    }
}

/// Reads the settings of a file that needn't say where a live run finds its ends.
#[tactic(auto, using(crate::proofs::SettingsLemmas::read_text, crate::proofs::SettingsLemmas::no_root))]
fn read_settings(alloc: Global, text: &[u8]) -> Result<Config, ConfigFault>
    ensures { IsReadOfText text.now result }
{
    match root_of(alloc, text) {
        Ok(root) => read_table(alloc, &root),
        Err(fault) => Err(fault),
    }
}

/// Reads the settings of a file for a live run, which has to say where its line and its control
/// centre are. The faults are those of [`read_config`]: the keys of `live` come after all others
/// and before unknown ones.
#[tactic(auto, using(crate::proofs::SettingsLemmas::read_text, crate::proofs::SettingsLemmas::no_root))]
pub fn read_live_config(alloc: Global, text: &[u8]) -> Result<(Config, LiveSettings), ConfigFault>
    ensures { IsLiveReadOfText text.now result }
{
    match root_of(alloc, text) {
        Ok(root) => read_live_table(alloc, &root),
        Err(fault) => Err(fault),
    }
}

/// The document that octets are.
fn root_of(alloc: Global, text: &[u8]) -> Result<Table, ConfigFault>
    ensures { MatchResult result (λ root. IsDocument text.now (table_view root))
        (IsRootFault text.now) }
{
    match toml::table_from_slice(alloc, text) {
        Ok(root) => Ok(root),
        Err(fault) if fault.is_memory() => Err(ConfigFault::NoMemory),
        Err(_) => Err(ConfigFault::NotToml),
    }
}

/// Reads each key in its order, and then looks for unknown ones.
pub(crate) fn read_table(alloc: Global, root: &Table) -> Result<Config, ConfigFault>
    ensures { IsReadOf (known_settings (table_view root.now)) values_of
        (table_view root.now) result }
{
    let config = read_known(alloc, root)?;
    refuse_unknown(alloc, root)?;
    Ok(config)
}

/// The same for a live run.
pub(crate) fn read_live_table(
    alloc: Global,
    root: &Table,
) -> Result<(Config, LiveSettings), ConfigFault>
    ensures { IsReadOf (known_live (table_view root.now)) live_values_of
        (table_view root.now) result }
{
    let both = read_known_live(alloc, root)?;
    refuse_unknown(alloc, root)?;
    Ok(both)
}

/// Reads each key in its order.
#[tactic(auto, using(crate::proofs::SettingsLemmas::wrong_before))]
fn read_known(alloc: Global, root: &Table) -> Result<Config, ConfigFault>
    ensures { IsKnownOf (known_settings (table_view root.now)) values_of result }
{
    let config = read_gateway(alloc, root)?;
    // Every command judges these too, though only `run` needs them (docs/DECISIONS.md, "All
    // settings are judged").
    judge_live(section(root, "live", "live.line")?)?;
    Ok(config)
}

/// The same for a live run.
#[tactic(auto, using(crate::proofs::SettingsLemmas::wrong_before))]
fn read_known_live(alloc: Global, root: &Table) -> Result<(Config, LiveSettings), ConfigFault>
    ensures { IsKnownOf (known_live (table_view root.now)) live_values_of result }
{
    let config = read_gateway(alloc, root)?;
    let live = read_live(alloc, section(root, "live", "live.line")?)?;
    Ok((config, live))
}

/// Which station of a file is the first that is wrong, counted from 0, if one is; none, if the line
/// is wrong.
pub fn wrong_station(alloc: Global, root: &Table) -> Result<Option<usize>, AllocError> {
    match line_in(root) {
        Ok(line) => first_wrong(
            alloc,
            given(Some(root), "station"),
            line.link,
            line.sizes.ca,
        ),
        Err(_) => Ok(None),
    }
}

/// The settings of the line.
fn line_in(root: &Table) -> Result<LineSettings, WrongKey> {
    read_line(section(root, "line", "line.link")?)
}

/// Reads each key of the gateway itself, in its order.
#[tactic(auto, using(crate::proofs::SettingsLemmas::wrong_before))]
fn read_gateway(alloc: Global, root: &Table) -> Result<Config, ConfigFault>
    ensures { IsKnownOf (gateway_values (table_view root.now)) values_of result }
{
    let line = read_line(section(root, "line", "line.link")?)?;
    let tcp = read_tcp(section(root, "tcp", "tcp.k")?)?;
    let stations = given(Some(root), "station");
    let stations = read_stations(alloc, stations, line.link, line.sizes.ca)?;
    Ok(Config::new(line, tcp, stations))
}

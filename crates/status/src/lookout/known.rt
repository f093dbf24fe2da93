//! What is known of the stations before a run.
ghost use Rattle.std.specs.Prelude.{◌≡◌, IfOk};
ghost use Rattle.status.specs.Shown.{AreKnown, text_or_none};
ghost use Rattle.runlog.specs.Names.{name_in};

use gateway::StationSettings;
use runlog::{NamedStation, name_of};
use std::alloc::{AllocError, Global};

/// A station of the settings, with the name that the site gives it.
#[derive(Drop)]
pub(crate) struct Known {
    /// Empty if it has none.
    pub(crate) name: String,
    pub(crate) common_address: u16,
}

/// The stations of the settings, in their order.
pub(crate) fn known_of(
    alloc: Global,
    stations: &[StationSettings],
    names: &[NamedStation<'_>],
) -> Result<Vec<Known>, AllocError>
    ensures { IfOk result (λ known. AreKnown names.now stations.now known.items) }
{
    let mut known = Vec::with_capacity(alloc, stations.len())?;
    for station in stations {
        let name = called(names, station.address);
        known.push(Known {
            name: String::from_str(alloc, name)?,
            common_address: station.ca,
        })?;
    }
    Ok(known)
}

/// The name of the station with this link address, or nothing.
fn called<'a>(names: &[NamedStation<'a>], address: u16) -> &'a str
    ensures { result.now ≡ text_or_none (name_in address names.now) }
{
    match name_of(names, address) {
        Some(name) => name,
        None => "",
    }
}

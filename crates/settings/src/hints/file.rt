//! The files whose faults are explained.

use crate::config::{read_live_table, read_table};
use crate::fault::ConfigFault;
use crate::hints::remarks::KeyFault;
use crate::site::{SITE_ROWS, Site, SiteFault, read_site_table, site_values};
use crate::wanted::{ROWS, WantedRow, wanted_values};
use std::alloc::{AllocError, Global};
use std::net::IpAddr;
use toml::Table;

/// A file whose faults are explained.
#[derive(Clone, Copy)]
pub(crate) enum File {
    /// The settings.
    Settings,
    /// The settings of a live run.
    LiveSettings,
    /// What belongs to a site.
    Site,
}

impl File {
    /// The table of its keys.
    pub(crate) fn rows(self) -> &'static [WantedRow] {
        match self {
            File::Settings | File::LiveSettings => ROWS,
            File::Site => SITE_ROWS,
        }
    }

    /// What is wanted of the key with this dotted path, in words, if there is such a key.
    pub(crate) fn values(self, path: &str) -> Option<&'static str> {
        match self {
            File::Settings | File::LiveSettings => wanted_values(path),
            File::Site => site_values(path),
        }
    }

    /// The page that has the table of its keys.
    pub(crate) fn page(self) -> &'static str {
        match self {
            File::Settings | File::LiveSettings => "docs/SETTINGS.md",
            File::Site => "docs/SITE.md",
        }
    }

    /// The first fault of a document that is to be this file.
    pub(crate) fn fault_in(
        self,
        alloc: Global,
        root: &Table,
    ) -> Result<Option<KeyFault>, AllocError> {
        match self {
            File::Settings => fault_of(alloc, read_table(alloc, root).err()),
            File::LiveSettings => fault_of(alloc, read_live_table(alloc, root).err()),
            File::Site => match read_site_table(alloc, root) {
                Ok(site) => fault_of_addresses(alloc, &site),
                Err(fault) => fault_of_site(alloc, fault),
            },
        }
    }
}

/// The fault of settings.
fn fault_of(alloc: Global, fault: Option<ConfigFault>) -> Result<Option<KeyFault>, AllocError> {
    match fault {
        Some(ConfigFault::Key(path)) => {
            Ok(Some(KeyFault::Wrong(String::from_str(alloc, path)?)))
        }
        Some(ConfigFault::Unknown(path)) => Ok(Some(KeyFault::Unknown(path))),
        Some(ConfigFault::NoMemory) => Err(AllocError),
        // A table is a document.
        Some(ConfigFault::NotToml) | None => Ok(None),
    }
}

/// The fault of a site's file.
fn fault_of_site(alloc: Global, fault: SiteFault) -> Result<Option<KeyFault>, AllocError> {
    match fault {
        SiteFault::Key(path) => Ok(Some(KeyFault::Wrong(String::from_str(alloc, path)?))),
        SiteFault::Unknown(path) => Ok(Some(KeyFault::Unknown(path))),
        SiteFault::NoMemory => Err(AllocError),
        SiteFault::NotToml => Ok(None),
    }
}

/// That a site names who may connect by a text that is no address, which is judged last. Whether a
/// directory is named for the state isn't judged here, since the words of a run may name one.
fn fault_of_addresses(alloc: Global, site: &Site) -> Result<Option<KeyFault>, AllocError> {
    let Some(words) = &site.places.allow else {
        return Ok(None);
    };
    for word in words {
        if word.as_str().parse::<IpAddr>().is_err() {
            return Ok(Some(KeyFault::Wrong(String::from_str(alloc, "allow")?)));
        }
    }
    Ok(None)
}

//! The settings of a gateway: a TOML file, read key by key (this gateway's own profile).
//!
//! `read_config` reads a file's octets into a gateway's `Config`, or answers a `ConfigFault`, which
//! names the first fault. What the gateway does with a setting is its own matter. Proved: the
//! settings are those that the definition in `specs/Settings.antt` gives, with each number in its
//! range, and link addresses and common addresses distinct. A wrong key is the first wrong one in
//! the definition's order. An unknown key is reported only if no key is wrong, and is the least of
//! the unknown ones in the order of octets. A file without fault is never refused but for want of
//! memory.
//!
//! `site` reads a site's file, `hints` says what is wrong with either file and where, and `places`
//! finds where a value stands in a text.
#![tactic(auto)]

mod config;
mod fault;
mod hints;
mod keys;
mod line;
mod live;
mod places;
mod site;
mod stations;
mod tcp;
mod unknown;
mod wanted;

pub use config::{read_config, read_live_config, wrong_station};
pub use fault::{ConfigFault, WrongKey};
pub use hints::{
    Remark, config_remarks, explain, explain_site, listen_remarks, live_remarks, site_remarks,
    stranger_remarks,
};
pub use keys::{Flag, Whole, given, section};
pub use live::{LiveSettings, is_address, is_here};
pub use places::Place;
pub use site::{Flags, Names, Places, Site, SiteFault, StationName, read_site, site_values};
pub use wanted::wanted_values;

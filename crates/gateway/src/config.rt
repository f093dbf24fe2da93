//! All settings together.
ghost use Rattle.std.specs.Prelude.{◌≡◌};

use crate::settings::{LineSettings, StationSettings, TcpSettings};
use std::marker::Model;

/// The settings of a gateway: those of the line, of the connection, and the stations in the order
/// of their turns. Contracts see them as a record of these.
#[derive(Drop)]
pub struct Config {
    line: LineSettings,
    tcp: TcpSettings,
    stations: Vec<StationSettings>,
}

impl Model for Config {
    ghost use Rattle.gateway.specs.Config.{Settings, AreStations};

    ghost Value = { Settings };

    ghost view = { λ c. record { line = c.line; tcp = c.tcp; stations = c.stations.items } };

    // 1 to 32 stations, with addresses that they can have, all distinct.
    ghost invariant = { λ c. AreStations c.line.link c.line.sizes.ca c.stations.items };
}

impl Config {
    ghost use Rattle.gateway.specs.Config.{AreStations};

    /// The settings with these values. A reader of settings makes sure of the stations before it
    /// calls: there are 1 to 32, each has addresses that a station can have, and no two have the
    /// same link address or the same common address.
    pub fn new(line: LineSettings, tcp: TcpSettings, stations: Vec<StationSettings>) -> Config
        requires { AreStations line.link line.sizes.ca stations.items }
        ensures { result ≡ record { line = line; tcp = tcp; stations = stations.items } }
    {
        Config {
            line,
            tcp,
            stations,
        }
    }

    /// The settings of the line.
    pub fn line(&self) -> &LineSettings
        ensures { result.now ≡ self.now.line }
    {
        &self.line
    }

    /// The settings of the connection.
    pub fn tcp(&self) -> &TcpSettings
        ensures { result.now ≡ self.now.tcp }
    {
        &self.tcp
    }

    /// The stations, in the order of their turns.
    pub fn stations(&self) -> &[StationSettings]
        ensures stations { result.now ≡ self.now.stations }
        ensures rules { AreStations self.now.line.link self.now.line.sizes.ca self.now.stations }
    {
        &self.stations
    }
}

//! Whether two settings are the same, value by value.
ghost use Rattle.std.specs.Prelude.{◌≡◌, true, false};
ghost use Rattle.settings.specs.Line.{line_of};
ghost use Rattle.settings.specs.Settings.{values_of};
ghost use Rattle.settings.specs.Tcp.{tcp_of};

use gateway::{Config, LineSettings, StationSettings, TcpSettings};

/// Whether both lines are set alike.
fn are_same_lines(first: &LineSettings, second: &LineSettings) -> bool
    ensures same { result ≡ true → line_of first.now ≡ line_of second.now }
    ensures others { result ≡ false → line_of first.now ≡ line_of second.now → ⊥ }
{
    first == second
}

/// Whether both connections are set alike.
fn are_same_connections(first: &TcpSettings, second: &TcpSettings) -> bool
    ensures same { result ≡ true → tcp_of first.now ≡ tcp_of second.now }
    ensures others { result ≡ false → tcp_of first.now ≡ tcp_of second.now → ⊥ }
{
    first == second
}

/// Whether both have the same stations in the same order.
fn are_same_stations(first: &[StationSettings], second: &[StationSettings]) -> bool
    ensures same { result ≡ true → first.now ≡ second.now }
    ensures others { result ≡ false → first.now ≡ second.now → ⊥ }
{
    first == second
}

/// Whether both have the same values.
pub(crate) fn are_same(first: &Config, second: &Config) -> bool
    ensures same { result ≡ true → values_of first.now ≡ values_of second.now }
    ensures others { result ≡ false → values_of first.now ≡ values_of second.now → ⊥ }
{
    are_same_lines(first.line(), second.line())
        && are_same_connections(first.tcp(), second.tcp())
        && are_same_stations(first.stations(), second.stations())
}

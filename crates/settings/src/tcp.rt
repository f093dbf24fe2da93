//! The settings of the IEC 60870-5-104 connection.
ghost use Rattle.std.specs.Prelude.{◌≡◌};
ghost use Rattle.settings.specs.Faults.{seen_by};
ghost use Rattle.settings.specs.Keys.{members_in};
ghost use Rattle.settings.specs.Tcp.{tcp_settings, tcp_of};

use crate::fault::WrongKey;
use crate::keys::Whole;
use gateway::TcpSettings;
use toml::Table;

const K: &Whole = &Whole {
    key: "k",
    path: "tcp.k",
    low: 1,
    high: 32767,
    default: Some(12),
};

const W: &Whole = &Whole {
    key: "w",
    path: "tcp.w",
    low: 1,
    high: 32767,
    default: Some(8),
};

const T1_MS: &Whole = &Whole {
    key: "t1_ms",
    path: "tcp.t1_ms",
    low: 2,
    high: 255000,
    default: Some(15000),
};

/// Its greatest value is one less than `tcp.t1_ms`.
const T2_MS: &Whole = &Whole {
    key: "t2_ms",
    path: "tcp.t2_ms",
    low: 1,
    high: 0,
    default: Some(10000),
};

const T3_MS: &Whole = &Whole {
    key: "t3_ms",
    path: "tcp.t3_ms",
    low: 1,
    high: 86400000,
    default: Some(20000),
};

const SELECT_MS: &Whole = &Whole {
    key: "select_ms",
    path: "tcp.select_ms",
    low: 1,
    high: 600000,
    default: Some(30000),
};

const MAX_AGE_MS: &Whole = &Whole {
    key: "max_age_ms",
    path: "tcp.max_age_ms",
    low: 1,
    high: 3600000,
    default: Some(10000),
};

/// Reads the keys of the table `tcp` in their order.
pub(crate) fn read_tcp(table: Option<&Table>) -> Result<TcpSettings, WrongKey>
    ensures { seen_by tcp_of result ≡ tcp_settings (members_in table.entry) }
{
    let k = K.read(table)? as u16;
    let w = W.read(table)? as u16;
    let t1_ms = T1_MS.read(table)?;
    let t2_ms = Whole {
        high: t1_ms - 1,
        ..*T2_MS
    }
    .read(table)?;
    let t3_ms = T3_MS.read(table)?;
    let select_ms = SELECT_MS.read(table)?;
    let max_age_ms = MAX_AGE_MS.read(table)?;
    Ok(TcpSettings {
        k,
        w,
        t1_ms: u64::from(t1_ms),
        t2_ms: u64::from(t2_ms),
        t3_ms: u64::from(t3_ms),
        select_ms: u64::from(select_ms),
        max_age_ms: u64::from(max_age_ms),
    })
}

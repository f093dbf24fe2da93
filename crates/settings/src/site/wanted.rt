//! What is wanted of each key, in words: the table of docs/SITE.md.

use crate::wanted::{WantedRow, values_in};

/// The keys of a site's file.
pub(crate) const SITE_ROWS: &[WantedRow] = &[
    ("allow", "a list of IPv4 and IPv6 addresses"),
    ("status", "HOST:PORT"),
    ("state", "a directory's name"),
    (
        "state_or_stop",
        "true or false, true only where a directory is named",
    ),
    ("log", "true or false"),
    ("log_severity", "true or false"),
    ("redial", "true or false"),
    ("record", "true or false"),
    ("line", "a table"),
    ("line.name", "1 to 40 printable characters"),
    ("station", "any number of tables"),
    ("station.link", "1 to 65534, no two alike"),
    ("station.name", "1 to 40 printable characters"),
];

/// What is wanted of the value of the key with this dotted path, in words; none, if there is no
/// such key.
pub fn site_values(path: &str) -> Option<&'static str> {
    values_in(SITE_ROWS, path)
}

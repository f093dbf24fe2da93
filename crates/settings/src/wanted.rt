//! What is wanted of each key, in words: the table of docs/SETTINGS.md.

/// The dotted path of a key, and what is wanted of its value, in words.
pub(crate) type WantedRow = (&'static str, &'static str);

/// The keys of settings.
pub(crate) const ROWS: &[WantedRow] = &[
    ("line", "a table"),
    ("line.link", "1 to 2"),
    ("line.cause", "1 to 2"),
    ("line.ca", "1 to 2"),
    ("line.ioa", "1 to 3"),
    ("line.answer_ms", "1 to 60000"),
    ("line.retries", "0 to 10"),
    ("line.silence", "\"hold\" or \"reset\""),
    ("line.burst", "1 to 255"),
    ("line.queue", "3 to 65535"),
    ("tcp", "a table"),
    ("tcp.k", "1 to 32767"),
    ("tcp.w", "1 to 32767"),
    ("tcp.t1_ms", "2 to 255000"),
    ("tcp.t2_ms", "1 to t1_ms - 1"),
    ("tcp.t3_ms", "1 to 86400000"),
    ("tcp.select_ms", "1 to 600000"),
    ("tcp.max_age_ms", "1 to 3600000"),
    ("station", "1 to 32 tables"),
    (
        "station.address",
        "1 to 254, or to 65534 where line.link is 2",
    ),
    ("station.ca", "1 to 254, or to 65534 where line.ca is 2"),
    ("station.select", "true or false"),
    ("live", "a table"),
    ("live.line", "tcp:HOST:PORT or unix:PATH"),
    ("live.listen", "HOST:PORT"),
];

/// What is wanted of the value of the key with this dotted path, in words; none, if there is no
/// such key.
pub fn wanted_values(path: &str) -> Option<&'static str> {
    values_in(ROWS, path)
}

/// The same by a table of keys.
pub(crate) fn values_in(rows: &'static [WantedRow], path: &str) -> Option<&'static str> {
    for (key, values) in rows {
        if *key == path {
            return Some(*values);
        }
    }
    None
}

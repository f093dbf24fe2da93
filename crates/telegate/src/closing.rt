//! What a run prints behind the lines of its actions.
ghost use Rattle.std.specs.Prelude.{◌≡◌, ◌++◌, OnOk, string_bytes};
ghost use Rattle.std.specs.List.{flat_map};
ghost use Rattle.events.specs.Queue.{kept};
ghost use Rattle.telegate.specs.Closing.{left_line, left_lines, skipped_text, others_text};
ghost use Rattle.telegate.specs.Closing.{counts_lines, closing_lines};

use gateway::Gateway;
use std::alloc::{AllocError, Global};

/// Which lines a run ends with.
#[derive(Clone, Copy)]
pub(crate) struct Closing {
    /// A line for each piece that no connection has acknowledged, oldest first.
    pub(crate) left: bool,
    /// A line with what was counted.
    pub(crate) counts: bool,
}

/// Appends a line for each piece that no connection has acknowledged.
fn push_pieces(alloc: Global, lines: &mut String, gateway: &Gateway) -> Result<(), AllocError>
    ensures { OnOk result (string_bytes lines.new ≡ string_bytes lines.old
        ++ flat_map left_line (kept gateway.now.centre.queue)) }
{
    for piece in gateway.kept() {
        let digits = hex::encode_upper(alloc, piece)?;
        writeln!(lines, "left {digits}")?;
    }
    Ok(())
}

/// The same, if it is asked for.
fn push_left(
    alloc: Global,
    lines: &mut String,
    gateway: &Gateway,
    left: bool,
) -> Result<(), AllocError>
    ensures { OnOk result (string_bytes lines.new ≡ string_bytes lines.old
        ++ left_lines left gateway.now) }
{
    if !left {
        return Ok(());
    }
    push_pieces(alloc, lines, gateway)
}

/// Appends the number of reports that can't be used.
fn push_skipped(lines: &mut String, skipped: u64) -> Result<(), AllocError>
    ensures { OnOk result (string_bytes lines.new ≡ string_bytes lines.old
        ++ skipped_text skipped) }
{
    write!(lines, "counts skipped {skipped} ")
}

/// Appends the other numbers.
fn push_others(lines: &mut String, mirrors: u64, lost: u64, spoilt: u64) -> Result<(), AllocError>
    ensures { OnOk result (string_bytes lines.new ≡ string_bytes lines.old
        ++ others_text mirrors lost spoilt) }
{
    writeln!(lines, "mirrors {mirrors} lost {lost} spoilt {spoilt}")
}

/// Appends the line of what was counted, if it is asked for.
fn push_counts(lines: &mut String, gateway: &Gateway, counts: bool) -> Result<(), AllocError>
    ensures { OnOk result (string_bytes lines.new ≡ string_bytes lines.old
        ++ counts_lines counts gateway.now) }
{
    if !counts {
        return Ok(());
    }
    let counts = gateway.counts();
    push_skipped(lines, counts.skipped)?;
    push_others(lines, counts.mirrors, counts.lost, counts.spoilt)
}

/// Appends the lines with which a run ends.
pub(crate) fn push_closing(
    alloc: Global,
    lines: &mut String,
    gateway: &Gateway,
    closing: Closing,
) -> Result<(), AllocError>
    ensures { OnOk result (string_bytes lines.new ≡ string_bytes lines.old
        ++ closing_lines closing.left closing.counts gateway.now) }
{
    push_left(alloc, lines, gateway, closing.left)?;
    push_counts(lines, gateway, closing.counts)
}

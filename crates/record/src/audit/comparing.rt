//! The comparison of a record with its run, part by part.
ghost use Rattle.std.specs.Prelude.{◌≡◌, ◌+◌, ◌++◌, ◌∷◌, false, ℕ, List, IfOk, IfSome, length};
ghost use Rattle.std.specs.Option.{option_copied};
ghost use Rattle.std.specs.Str.{bytes_eq};
ghost use Rattle.traces.specs.Fields.{parts_after};
ghost use Rattle.record.specs.Comparing.{AreWhole, IsCompared, IsWalk};
ghost use Rattle.record.specs.Lines.{is_cut, whole_lines};

use super::passing::{LINE_FEED, is_cut};
use std::alloc::{AllocError, Global};
use traces::cut;

/// How the lines of a record stand beside those of its run so far.
#[derive(Drop)]
pub(crate) enum Agreement {
    /// They are the run's, which has these lines more.
    Level(Vec<u8>),
    /// The run has no line so far for the record's line of this number, which is this one.
    Behind(u64, Vec<u8>),
    /// The line of this number, which is this one, isn't the run's.
    Differs(u64, Vec<u8>),
}

/// The same of the lines of one part.
#[derive(Clone, Copy)]
pub(crate) enum Walk<'a> {
    Level(&'a [u8]),
    Behind(u64, &'a [u8]),
    Differs(u64, &'a [u8]),
}

/// Whether two lines are the same.
fn is_same(line: &[u8], other: &[u8]) -> bool
    ensures { result ≡ bytes_eq line.now other.now }
{
    line == other
}

/// Compares lines, of which the first has this number, with those of a run, one by one. `None` says
/// that there are more than any memory holds.
fn walk_along<'a>(lines: Option<&'a [u8]>, first: u64, run: &'a [u8]) -> Option<Walk<'a>>
    ensures { IfSome result (IsWalk first (parts_after 10 (option_copied lines.entry))
        run.entry.now) }
{
    let mut left = lines;
    let mut ahead = run;
    'walking: for number in first..u64::MAX {
        let Some(text) = left else {
            return Some(Walk::Level(ahead));
        };
        let (line, rest) = cut(text, LINE_FEED);
        left = rest;
        if is_cut(line) {
            continue;
        }
        let (other, behind) = cut(ahead, LINE_FEED);
        let Some(later) = behind else {
            return Some(Walk::Behind(number, line));
        };
        if !is_same(line, other) {
            return Some(Walk::Differs(number, line));
        }
        ahead = later;
    }
    None
}

/// What is left of a run that begins with these lines, none of which was cut short: so it mostly
/// does, and one look at all of them takes less time than one at each.
fn behind_all<'a>(lines: &[u8], run: &'a [u8]) -> Option<&'a [u8]>
    ensures { IfSome result (λ rest. (run.entry.now ≡ lines.now ++ 10 ∷ rest.now)
        × (is_cut lines.now ≡ false)) }
{
    let end = lines.len();
    if end >= run.len() {
        return None;
    }
    let (front, feed, rest) = (&run[..end], run[end], &run[end + 1..]);
    if feed != LINE_FEED || is_cut(lines) || !is_same(lines, front) {
        return None;
    }
    Some(rest)
}

/// Compares lines, of which the first has this number, with those of a run.
fn compare_all<'a>(lines: Option<&'a [u8]>, first: u64, run: &'a [u8]) -> Option<Walk<'a>>
    ensures { IfSome result (IsWalk first (parts_after 10 (option_copied lines.entry))
        run.entry.now) }
{
    let Some(text) = lines else {
        return walk_along(lines, first, run);
    };
    match behind_all(text, run) {
        Some(rest) => Some(Walk::Level(rest)),
        None => walk_along(lines, first, run),
    }
}

/// Compares the lines of a part, of which the first has this number, with those of its run. The
/// lines before were the run's, which had more.
fn go_on(
    alloc: Global,
    ahead: Vec<u8>,
    part: Option<&[u8]>,
    first: u64,
    page: &[u8],
) -> Result<Agreement, AllocError>
    requires { AreWhole page.now }
    ensures { (lines run : List (List ℕ)) → IsCompared lines run (Agreement.Level ahead) →
        first ≡ 1 + length lines →
        IfOk result (IsCompared (lines ++ parts_after 10 (option_copied part.entry))
        (run ++ whole_lines page.now)) }
{
    let mut logged = ahead;
    logged.extend_from_slice(page)?;
    let Some(walk) = compare_all(part, first, logged.as_slice()) else {
        return Err(AllocError);
    };
    match walk {
        Walk::Level(rest) => Ok(Agreement::Level(Vec::from_slice(alloc, rest)?)),
        Walk::Behind(n, line) => Ok(Agreement::Behind(n, Vec::from_slice(alloc, line)?)),
        Walk::Differs(n, line) => Ok(Agreement::Differs(n, Vec::from_slice(alloc, line)?)),
    }
}

/// The run goes on, which had no line for the record's one of this number.
fn catch_up(number: u64, line: Vec<u8>, page: &[u8]) -> Result<Agreement, AllocError>
    ensures { (lines more run : List (List ℕ)) →
        IsCompared lines run (Agreement.Behind number line) →
        IfOk result (IsCompared (lines ++ more) (run ++ whole_lines page.now)) }
{
    let (other, behind) = cut(page, LINE_FEED);
    if behind.is_none() {
        return Ok(Agreement::Behind(number, line));
    }
    if is_same(line.as_slice(), other) {
        // That can't be: a run goes on with an event, and this line logs none.
        return Err(AllocError);
    }
    Ok(Agreement::Differs(number, line))
}

/// Compares the lines of one part more, of which the first has this number, with those of its run.
pub(crate) fn compare(
    alloc: Global,
    standing: Agreement,
    part: Option<&[u8]>,
    first: u64,
    page: &[u8],
) -> Result<Agreement, AllocError>
    requires { AreWhole page.now }
    ensures { (lines run : List (List ℕ)) → IsCompared lines run standing →
        first ≡ 1 + length lines →
        IfOk result (IsCompared (lines ++ parts_after 10 (option_copied part.entry))
        (run ++ whole_lines page.now)) }
{
    match standing {
        Agreement::Level(ahead) => go_on(alloc, ahead, part, first, page),
        Agreement::Behind(number, line) => catch_up(number, line, page),
        Agreement::Differs(number, line) => Ok(Agreement::Differs(number, line)),
    }
}

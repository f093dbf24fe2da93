//! What a client does with an answer: its body, and what a monitor makes of it.
ghost use Rattle.httparse.specs.Grammar.{ReadsResponse, ResponseHead, status_code};
ghost use Rattle.std.specs.Prelude.{◌≡◌, ◌≤◌, ℕ, List, IfSome, IsSome, length};
ghost use Rattle.status.specs.Reply as spec;

use httparse::Status;
use httparse::spans::{EMPTY_HEADER_SPAN, parse_response};

/// How many header fields an answer may have.
const FIELDS: usize = 64;

/// The status of an answer that shows a page (RFC 9110, 15.3.1).
const SHOWN: u16 = 200;

/// What isn't known: nobody answers, or not as this gateway does.
pub const UNKNOWN: u8 = 3;

/// The exit status that a monitor wants (Nagios): 0 ok, 1 a warning, 2 critical, 3 unknown. It is
/// the first word of the table for a terminal.
pub fn exit_status(table: &[u8]) -> u8
    ensures { result ≡ spec.exit_status table.now }
{
    if table.starts_with(b"OK: ".as_slice()) {
        0
    } else if table.starts_with(b"WARNING: ".as_slice()) {
        1
    } else if table.starts_with(b"CRITICAL: ".as_slice()) {
        2
    } else {
        UNKNOWN
    }
}

/// The body of an answer that shows a page (status 200): what stands behind its head. None if the
/// answer is another one, or its head hasn't come whole.
pub fn body_of(answer: &[u8]) -> Option<&[u8]>
    ensures page { IfSome result (λ body. (head : ResponseHead) ×
        ReadsResponse answer.entry.now head body.now × (status_code head ≡ 200)) }
    ensures found { (head : ResponseHead) (rest : List ℕ) →
        ReadsResponse answer.entry.now head rest → length head.fields ≤ 64 →
        status_code head ≡ 200 → IsSome result }
{
    let mut fields = [EMPTY_HEADER_SPAN; FIELDS];
    match parse_response(answer, &mut fields) {
        Ok(Status::Complete(head)) if head.code == SHOWN => Some(&answer[head.len..]),
        _ => None,
    }
}

//! The octets that write a value.
ghost use Rattle.std.specs.Prelude.{◌≡◌, ◌==◌, ◌<◌, ◌≤◌, length, position, IfSome, slice_index};
ghost use Rattle.settings.specs.Spans.{IsWithin};

/// The octets of a text from `from` on to before `to`.
#[derive(Clone, Copy)]
pub struct Span {
    pub from: usize,
    pub to: usize,
}

/// The octets of a value, if its key stands at `at`, and behind it an equals sign.
pub(crate) fn value_at(text: &[u8], key: &[u8], at: usize) -> Option<Span>
    requires { at ≤ length text.now }
    ensures { IsWithin text.now result }
{
    if text[at..].starts_with(key) {
        value_behind(text, equals_at(text, at + key.len()))
    } else {
        None
    }
}

/// The octets of a value behind an equals sign, if one stands here.
fn value_behind(text: &[u8], equals: usize) -> Option<Span>
    requires { equals ≤ length text.now }
    ensures { IsWithin text.now result }
{
    if octet_at(text, equals) != b'=' {
        return None;
    }
    let from = behind_blanks(text, equals + 1);
    Some(Span {
        from,
        to: value_end(text, from),
    })
}

/// The empty place behind a closing bracket at `at`.
pub(crate) fn gap_at(text: &[u8], at: usize) -> Option<Span>
    ensures { IsWithin text.now result }
{
    if octet_at(text, at) != b']' {
        return None;
    }
    Some(Span {
        from: at + 1,
        to: at + 1,
    })
}

/// The octet at `at`, or 0 behind the last.
fn octet_at(text: &[u8], at: usize) -> u8
    ensures { result ≡ slice_index text.now at }
{
    match text.get(at) {
        Some(octet) => *octet,
        None => 0,
    }
}

/// Where the equals sign of a key stands that ends at `at`, if it has one.
fn equals_at(text: &[u8], at: usize) -> usize
    requires { at ≤ length text.now }
    ensures within { result ≤ length text.now }
{
    behind_blanks(text, behind_quote(text, at))
}

/// Behind a quotation mark, if one stands here.
fn behind_quote(text: &[u8], at: usize) -> usize
    requires { at ≤ length text.now }
    ensures within { result ≤ length text.now }
{
    match octet_at(text, at) {
        b'"' | b'\'' => at + 1,
        _ => at,
    }
}

/// Behind the blanks that stand here.
fn behind_blanks(text: &[u8], at: usize) -> usize
    requires { at ≤ length text.now }
    ensures within { result ≤ length text.now }
{
    at + blanks_of(&text[at..])
}

/// How many blanks the text begins with.
fn blanks_of(text: &[u8]) -> usize
    ensures within { result ≤ length text.now }
{
    text.iter().take_while(|octet| is_blank(**octet)).count()
}

fn is_blank(octet: u8) -> bool {
    octet == b' ' || octet == b'\t'
}

/// Whether the octet belongs to a value that no quotation marks or brackets enclose.
fn is_plain(octet: u8) -> bool {
    !is_blank(octet) && !matches!(octet, b'\n' | b'\r' | b',' | b'#' | b']' | b'}')
}

/// What ends a value that begins so, if it is enclosed.
fn closing(octet: u8) -> Option<u8> {
    match octet {
        b'"' => Some(b'"'),
        b'\'' => Some(b'\''),
        b'[' => Some(b']'),
        b'{' => Some(b'}'),
        _ => None,
    }
}

/// Where a value ends that begins here.
fn value_end(text: &[u8], from: usize) -> usize
    requires { from ≤ length text.now }
    ensures behind { from ≤ result }
    ensures within { result ≤ length text.now }
{
    match closing(octet_at(text, from)) {
        Some(close) => enclosed_end(text, from, close),
        None => from + plain_of(&text[from..]),
    }
}

/// How many octets the text begins with that belong to such a value.
fn plain_of(text: &[u8]) -> usize
    ensures within { result ≤ length text.now }
{
    text.iter().take_while(|octet| is_plain(**octet)).count()
}

/// Behind the first `close` that follows the octet at `from`, or behind the last octet.
fn enclosed_end(text: &[u8], from: usize, close: u8) -> usize
    requires { from ≤ length text.now }
    ensures behind { from ≤ result }
    ensures within { result ≤ length text.now }
{
    if from >= text.len() {
        return text.len();
    }
    match first_of(&text[from + 1..], close) {
        Some(n) => from + n + 2,
        None => text.len(),
    }
}

/// How many octets stand before the first of this value.
fn first_of(text: &[u8], octet: u8) -> Option<usize>
    ensures within { IfSome result (λ n. n < length text.now) }
{
    text.iter().position(|o| *o == octet)
}

//! Keys that are texts.
ghost use Rattle.std.specs.Prelude.{◌≡◌, option_map, slice_index};
ghost use Rattle.settings.specs.Faults.{seen_by};
ghost use Rattle.settings.specs.Keys.{members_in};
ghost use Rattle.settings.specs.SiteKeys.{characters, has_control, is_control, is_good, is_name};
ghost use Rattle.settings.specs.SiteKeys.{text_of_key};

use crate::fault::WrongKey;
use crate::keys::given;
use crate::live::is_address;
use toml::Table;

/// What a text has to be.
#[derive(Clone, Copy)]
pub(crate) enum TextForm {
    /// 1 to 40 characters, and no control character.
    Name,
    /// `HOST:PORT`.
    Address,
    /// A directory's name: it isn't empty.
    Directory,
}

/// The text at a key that may be missing.
pub(crate) fn text<'a>(
    table: Option<&'a Table>,
    key: &str,
    path: &'static str,
    form: TextForm,
) -> Result<Option<&'a str>, WrongKey>
    ensures { seen_by (λ t. option_map (λ s. s.now) t) result
        ≡ text_of_key form key.now path.entry.now (members_in table.entry) }
{
    match given(table, key) {
        None => Ok(None),
        Some(value) => match value.as_str() {
            Some(text) if is_good(form, text.as_bytes()) => Ok(Some(text)),
            _ => Err(WrongKey { path }),
        },
    }
}

/// Whether the text is as it has to be.
fn is_good(form: TextForm, text: &[u8]) -> bool
    ensures { result ≡ is_good form text.now }
{
    match form {
        TextForm::Name => is_name(text),
        TextForm::Address => is_address(text),
        TextForm::Directory => !text.is_empty() && !has_control(text),
    }
}

/// Whether a text is 1 to 40 characters, and no control character.
fn is_name(text: &[u8]) -> bool
    ensures { result ≡ is_name text.now }
{
    (1..=40).contains(&characters(text)) && !has_control(text)
}

/// How many characters a text in UTF-8 has.
fn characters(text: &[u8]) -> usize
    ensures { result ≡ characters text.now }
{
    text.iter().filter(|octet| **octet & 0xC0 != 0x80).count()
}

/// Whether a text in UTF-8 has a control character.
#[tactic(auto, using(crate::proofs::SiteKeyLemmas::control_here, crate::proofs::SiteKeyLemmas::no_control_here, crate::proofs::SiteKeyLemmas::control_nowhere))]
fn has_control(text: &[u8]) -> bool
    ensures { result ≡ has_control text.now }
{
    for at in 0..text.len() {
        if is_control(text[at], octet_at(text, at + 1)) {
            return true;
        }
    }
    false
}

/// Whether two octets begin a control character: one below 32, 127, or one of 128 to 159, which is
/// written as 194 and its own number.
fn is_control(octet: u8, next: u8) -> bool
    ensures { result ≡ is_control octet next }
{
    octet < 32 || octet == 127 || octet == 194 && next < 160
}

/// The octet at `at`, or 0 behind the last.
fn octet_at(text: &[u8], at: usize) -> u8
    ensures { result ≡ slice_index text.now at }
{
    match text.get(at) {
        Some(octet) => *octet,
        None => 0,
    }
}

//! Numbers as octets.
ghost use Rattle.std.specs.Prelude.{◌≡◌, ◌++◌, ◌<◌, OnOk};
ghost use Rattle.std.specs.List.{flat_map};
ghost use Rattle.record.specs.Octets.{high_first, low_first, padding, word};

use std::alloc::AllocError;
use traces::Page;

/// Puts a number of 32 bits, its low octet first.
#[tactic(auto, unfolding(crate::specs::Octets::low_first))]
pub(crate) fn put_low_first(page: &mut Page, number: u32) -> Result<(), AllocError>
    ensures { OnOk result (page.new ≡ page.old ++ low_first number) }
{
    page.put(
        &[
            (number % 256) as u8,
            ((number >> 8) % 256) as u8,
            ((number >> 16) % 256) as u8,
            ((number >> 24) % 256) as u8,
        ][..],
    )
}

/// Puts a number of 32 bits, its high octet first.
#[tactic(auto, unfolding(crate::specs::Octets::high_first))]
pub(crate) fn put_high_first(page: &mut Page, number: u32) -> Result<(), AllocError>
    ensures { OnOk result (page.new ≡ page.old ++ high_first number) }
{
    page.put(
        &[
            ((number >> 24) % 256) as u8,
            ((number >> 16) % 256) as u8,
            ((number >> 8) % 256) as u8,
            (number % 256) as u8,
        ][..],
    )
}

/// Puts a word of 16 bits, its high octet first.
#[tactic(auto, unfolding(crate::specs::Octets::word))]
fn put_word(page: &mut Page, number: u16) -> Result<(), AllocError>
    ensures { OnOk result (page.new ≡ page.old ++ word number) }
{
    page.put(&[(number / 256) as u8, (number % 256) as u8][..])
}

/// Puts words, one after another.
pub(crate) fn put_words(page: &mut Page, words: &[u16]) -> Result<(), AllocError>
    ensures { OnOk result (page.new ≡ page.old ++ flat_map word words.now) }
{
    for number in words {
        put_word(page, *number)?;
    }
    Ok(())
}

/// Puts zeros behind so many octets, up to a multiple of four.
#[tactic(auto, unfolding(crate::specs::Octets::padding))]
pub(crate) fn put_padding(page: &mut Page, octets: usize) -> Result<(), AllocError>
    ensures { OnOk result (page.new ≡ page.old ++ padding octets) }
{
    match octets % 4 {
        0 => Ok(()),
        1 => page.put(&[0, 0, 0][..]),
        2 => page.put(&[0, 0][..]),
        _ => page.put(&[0][..]),
    }
}

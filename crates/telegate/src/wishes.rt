//! What is wished of a live run, by its words and by the file of its site.
ghost use Rattle.std.specs.Prelude.{◌≡◌, IfErr, IfOk, MatchResult, option_map, string_bytes};
ghost use Rattle.std.specs.Option.{option_or};
ghost use Rattle.settings.specs.Site.{IsSiteOf, names_of, site_of, texts_in};
ghost use Rattle.telegate.specs.CommandLine.{text_of, texts_of};
ghost use Rattle.telegate.specs.Wishes.{IsNoAllowList, IsNoSiteAllowList, AreWishes, IsGoodSite};
ghost use Rattle.telegate.specs.Wishes.{IsFirstSiteFault, IsSiteFault};
ghost use Rattle.telegate.specs.Wishes.{IsStateFault, IsWishFault, said_by, said_in, said_of};
ghost use Rattle.telegate.specs.AllowLists.{IsAllowListOf};

use crate::allow_list::allow_list_of;
use crate::fault::Fault;
use crate::host::Wishes;
use crate::run_words::RunWords;
use live::AllowList;
use settings::{Site, SiteFault, read_site};
use std::alloc::Global;

/// What belongs to a site, by the octets of its file.
pub(crate) fn site_in(alloc: Global, octets: &[u8]) -> Result<Site, Fault>
    ensures { MatchResult result (IsSiteOf octets.now) (IsSiteFault octets.now) }
{
    match read_site(alloc, octets) {
        Ok(site) => Ok(site),
        Err(SiteFault::NoMemory) => Err(Fault::NoMemory),
        Err(fault) => Err(Fault::Site(fault)),
    }
}

/// Judges the octets of a site's file, as a live run does whose words say nothing beside it.
pub(crate) fn judge_site(alloc: Global, octets: &[u8]) -> Result<(), Fault>
    ensures { MatchResult result (λ done. IsGoodSite octets.now) (IsFirstSiteFault octets.now) }
{
    match site_in(alloc, octets) {
        Ok(site) => match wishes_of(alloc, &RunWords::none(), &site) {
            Ok(_wishes) => Ok(()),
            Err(fault) => Err(fault),
        },
        Err(fault) => Err(fault),
    }
}

/// The text of a word, or else that of a key of the site, if there is one.
fn said<'a>(word: Option<&'a str>, key: &'a Option<String>) -> Option<&'a str>
    ensures { text_of result ≡ option_or (text_of word.entry) (option_map string_bytes key.now) }
{
    match word {
        Some(word) => Some(word),
        None => match key {
            Some(key) => Some(key.as_str()),
            None => None,
        },
    }
}

/// Who may connect by the file of a site: whom it names, or anyone if it names none.
fn allow_list_in(alloc: Global, allow: &Option<Vec<String>>) -> Result<AllowList, Fault>
    ensures allow_list { IfOk result (IsAllowListOf (option_map texts_in allow.now)) }
    ensures fault { IfErr result (IsNoSiteAllowList (option_map texts_in allow.now)) }
{
    let Some(addresses) = allow else {
        return Ok(AllowList::Anyone);
    };
    match allow_list_of(alloc, Some(addresses.as_slice())) {
        Ok(allow_list) => Ok(allow_list),
        Err(Fault::Address) => Err(Fault::Site(SiteFault::Key("allow"))),
        Err(fault) => Err(fault),
    }
}

/// Who may connect: by the words, or by the file of the site if these say nothing of it.
fn allow_list_said(
    alloc: Global,
    words: Option<&[&str]>,
    site: &Option<Vec<String>>,
) -> Result<AllowList, Fault>
    ensures allow_list { IfOk result (IsAllowListOf (option_or (texts_of words.entry)
        (option_map texts_in site.now))) }
    ensures fault { IfErr result (IsNoAllowList (texts_of words.entry)
        (option_map texts_in site.now)) }
{
    match words {
        Some(words) => allow_list_of(alloc, Some(words)),
        None => allow_list_in(alloc, site),
    }
}

/// Why the run can't stop if its state isn't kept: none is named to be kept.
fn state_fault(by_words: bool) -> Fault
    ensures { IsStateFault by_words result }
{
    if by_words {
        Fault::NoState
    } else {
        Fault::Site(SiteFault::Key("state_or_stop"))
    }
}

/// What words and the file of a site wish for. What words say wins, and a flag is set if either
/// says so.
pub(crate) fn wishes_of<'a>(
    alloc: Global,
    words: &RunWords<'_, 'a>,
    site: &'a Site,
) -> Result<Wishes<'a>, Fault>
    ensures wishes { IfOk result (AreWishes
        (said_of (said_by words.now) (said_in (site_of site.now))) (names_of site.now.names)) }
    ensures fault { IfErr result (IsWishFault (said_by words.now) (said_in (site_of site.now))) }
{
    let state = said(words.state, &site.places.state);
    let state_or_stop = words.state_or_stop || site.flags.state_or_stop;
    if state_or_stop && state.is_none() {
        return Err(state_fault(words.state_or_stop));
    }
    match allow_list_said(alloc, words.allow, &site.places.allow) {
        Ok(allow_list) => Ok(Wishes {
            redial: words.redial || site.flags.redial,
            log: words.log || site.flags.log,
            log_severity: words.log_severity || site.flags.log_severity,
            record: words.record || site.flags.record,
            state,
            bears_loss: !state_or_stop,
            allow_list,
            status: said(words.status, &site.places.status),
            names: &site.names,
        }),
        Err(fault) => Err(fault),
    }
}

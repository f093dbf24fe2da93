//! The control centres that may connect, from words.
ghost use Rattle.std.specs.Prelude.{IfOk, IfErr, map, option_map};
ghost use Rattle.telegate.specs.AllowLists.{IsAllowListOf, IsAddress, IsAllowListFault};

use crate::fault::Fault;
use live::AllowList;
use std::alloc::Global;
use std::convert::AsStr;
use std::net::IpAddr;

/// The address that a word writes. An IPv4 address that is written as an IPv6 one is that IPv4
/// address.
fn address_of(word: &str) -> Option<IpAddr>
    ensures { IsAddress word.now result }
{
    match word.parse::<IpAddr>() {
        Ok(address) => Some(address.to_canonical()),
        Err(_) => None,
    }
}

/// Who may connect: whom the words name, or anyone if there are none.
pub(crate) fn allow_list_of<S: AsStr>(
    alloc: Global,
    words: Option<&[S]>,
) -> Result<AllowList, Fault>
    ensures allow_list { IfOk result (IsAllowListOf (option_map (λ ws. map S.text ws.now)
        words.entry)) }
    ensures fault { IfErr result (IsAllowListFault (option_map (λ ws. map S.text ws.now)
        words.entry)) }
{
    let Some(words) = words else {
        return Ok(AllowList::Anyone);
    };
    let mut addresses = Vec::new(alloc);
    for word in words {
        let Some(address) = address_of(word.as_str()) else {
            return Err(Fault::Address);
        };
        if addresses.push(address).is_err() {
            return Err(Fault::NoMemory);
        }
    }
    Ok(AllowList::Only(addresses))
}

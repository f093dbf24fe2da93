//! Who may connect.
ghost use Rattle.std.specs.Prelude.{◌↔◌, IsTrue};
ghost use Rattle.live.specs.AllowLists.{Allows};

use std::net::IpAddr;

/// Who may connect.
#[derive(PartialEq, Eq, Drop)]
pub enum AllowList {
    /// Whoever connects.
    Anyone,
    /// Who connects from one of these addresses.
    Only(Vec<IpAddr>),
}

impl AllowList {
    /// Whether this address may connect.
    pub fn allows(&self, address: IpAddr) -> bool
        ensures { IsTrue result ↔ Allows self.now address }
    {
        match self {
            AllowList::Anyone => true,
            AllowList::Only(addresses) => addresses.contains(&address),
        }
    }
}

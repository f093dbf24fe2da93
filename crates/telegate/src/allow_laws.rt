//! What an allow list lets in.
ghost use Rattle.std.specs.Prelude.{◌≡◌, List, [], Contains, Some, None};
ghost use Rattle.std.specs.Net.Addr.{IsCanonicalOf, MatchIp};
ghost use Rattle.std.specs.Net.Grammar.{IsIpText};
ghost use Rattle.std.specs.declared.net.ip_addr.IpAddr.{IpAddr};
ghost use Rattle.clap.specs.Words.{Text};
ghost use Rattle.live.specs.AllowLists.{Allows};
ghost use Rattle.live.specs.declared.allow_list.AllowList.{AllowList};
ghost use Rattle.telegate.specs.AllowLists.{IsAllowListOf, Writes};

/// Who may connect, by the words that name them. If none were given, anyone may. By a list without
/// a word nobody may. Else exactly those may whose address one of the words writes. A word that
/// writes an IPv4 address as an IPv6 one (`::ffff:192.0.2.7`) names that IPv4 address.
pub fn who_is_named_may_connect()
    ensures anyone { (list : AllowList) (address : IpAddr) → IsAllowListOf None list →
        Allows list address }
    ensures nobody { (list : AllowList) (address : IpAddr) → IsAllowListOf (Some []) list →
        Allows list address → ⊥ }
    ensures named { (words : List Text) (list : AllowList) (address : IpAddr) →
        IsAllowListOf (Some words) list → Allows list address →
        (word : Text) × Contains words word × Writes word address }
    ensures each { (words : List Text) (list : AllowList) (word : Text) →
        IsAllowListOf (Some words) list → Contains words word →
        (address : IpAddr) × Writes word address × Allows list address }
    ensures written { (word : Text) (address : IpAddr) → Writes word address →
        (written : IpAddr) × IsIpText word written
        × MatchIp written (λ _. address ≡ written) (λ mapped. IsCanonicalOf mapped address) }
{}

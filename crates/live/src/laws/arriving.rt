//! Laws of those who come to the listener.
ghost use Rattle.std.specs.Prelude.{◌⊎◌, ◌≡◌, ◌≢◌, None, ◌-◌, ℕ, List, [], ◌∷◌, length};
ghost use Rattle.std.specs.Prelude.{Option};
ghost use Rattle.std.specs.Prelude.{Some, Ok, Err, true, false, ◌↔◌, ◌^◌, ◌++◌, All, Bool};
ghost use Rattle.std.specs.declared.net.ip_addr.IpAddr.{IpAddr};
ghost use Rattle.gateway.specs.declared.ports.Next.{Next};
ghost use Rattle.live.specs.Ends.{LiveEnds, LogsTurn, LogsPut};
ghost use Rattle.live.specs.Law.{KeepsOut, peer_of};
ghost use Rattle.live.specs.Cuts.{shuts_nothing};
ghost use Rattle.live.specs.AllowLists.{Allows, IsPlain, counted, nobody};
ghost use Rattle.live.specs.Arrivals.{AcceptsNewest, Arrival, Arrivals, Comer, GoesOn, IsPeerOf};
ghost use Rattle.live.specs.Arrivals.{Sorts, TakesWaiting};
ghost use Rattle.live.specs.declared.ends.RefusedPeers.{RefusedPeers};
ghost use Rattle.live.specs.Telling.{IsNoComer, ShutsOut, Telling, Tells, one_more_told, told_by};
ghost use Rattle.std.specs.IoError.{error_kind};
ghost use Rattle.std.specs.Net.Addr.{IsIpv4Mapped, ipv4_octets, ipv6_segments, low_octets};
ghost use Rattle.std.specs.Net.Socket.{socket_ip};
ghost use Rattle.std.specs.declared.io.ErrorKind.TheVariants.{ConnectionAborted, Interrupted};
ghost use Rattle.std.specs.declared.io.ErrorKind.TheVariants.{WouldBlock};
ghost use Rattle.std.specs.declared.net.ip_addr.IpAddr.TheVariants.{V4, V6};
ghost use Rattle.std.specs.declared.net.ipv4_addr.Ipv4Addr.{Ipv4Addr};
ghost use Rattle.std.specs.declared.net.ipv6_addr.Ipv6Addr.{Ipv6Addr};
ghost use Rattle.live.specs.declared.allow_list.AllowList.{AllowList};
ghost use Rattle.std.specs.declared.io.Error.{Error};
ghost use Rattle.std.specs.declared.net.socket_addr.SocketAddr.{SocketAddr};
ghost use Rattle.std.specs.declared.net.tcp.TcpStream.{TcpStream};
ghost use Rattle.gateway.specs.Log.{Output};

/// Only allowed addresses connect: an event that opens a connection opens one of an address on the
/// allow list, and who is refused leaves the open connection as it was. A connection stays open
/// until it is cut, shut, or replaced by another: the gateway learns of each end but of those that
/// it makes.
pub fn only_allowed_addresses_connect()
    ensures events { (old new : LiveEnds) (event : Next) (buf : List ℕ) →
        LogsTurn old event buf new → KeepsOut old event new }
    ensures put { (old new : LiveEnds) (moment : ℕ) (action : Output) →
        LogsPut old moment action new → shuts_nothing action ≡ true →
        peer_of new ≡ peer_of old }
{}

/// Whoever comes and may not connect is refused, and whoever may is let in, by the answers of the
/// system alone. Of those who may the newest stays. He is accepted, unless his stream can't be
/// used. If nobody's is opened, there is no such one. Who comes has his own address, but an IPv4
/// address that is written as an IPv6 one counts as that IPv4 address. At each look all are asked
/// for who wait, up to 256 of them. Each one who was refused is counted, and nobody else.
pub fn who_comes_is_refused_or_let_in()
    ensures nobody { (allow_list : AllowList) (refused : List IpAddr) (newest : Option Comer) →
        Sorts allow_list [] refused newest → (refused ≡ []) × (newest ≡ None) }
    ensures refused { (allow_list : AllowList) (answers : List Arrival) (refused : List IpAddr)
        (newest : Option Comer) (stream : TcpStream) (socket : SocketAddr) →
        Sorts allow_list (Ok (stream, socket) ∷ answers) refused newest →
        ((peer : IpAddr) → IsPeerOf socket peer → Allows allow_list peer → ⊥) →
        (peer : IpAddr) × (before : List IpAddr) × IsPeerOf socket peer
        × (refused ≡ peer ∷ before) × Sorts allow_list answers before newest }
    ensures let_in { (allow_list : AllowList) (answers : List Arrival) (refused : List IpAddr)
        (newest : Option Comer) (stream : TcpStream) (socket : SocketAddr) →
        Sorts allow_list (Ok (stream, socket) ∷ answers) refused newest →
        ((peer : IpAddr) → IsPeerOf socket peer → Allows allow_list peer) →
        (peer : IpAddr) × (before : Option Comer) × IsPeerOf socket peer
        × (newest ≡ Some (peer, stream)) × Sorts allow_list answers refused before }
    ensures others { (allow_list : AllowList) (answers : List Arrival) (refused : List IpAddr)
        (newest : Option Comer) (fault : Error) →
        Sorts allow_list (Err fault ∷ answers) refused newest →
        Sorts allow_list answers refused newest }
    ensures accepted { (allow_list : AllowList) (old new : Arrivals) (said says : RefusedPeers)
        (opened : List Bool) (accepted : Option IpAddr) →
        AcceptsNewest allow_list old said (Some opened) accepted new says (Some (true ∷ opened)) →
        (newest : Comer) × TakesWaiting allow_list old said (Some newest) new says
        × (accepted ≡ Some newest.0) }
    ensures unopened { (allow_list : AllowList) (old new : Arrivals) (said says : RefusedPeers)
        (opened : List Bool) (accepted : Option IpAddr) →
        AcceptsNewest allow_list old said (Some opened) accepted new says (Some opened) →
        (accepted ≡ None) × TakesWaiting allow_list old said None new says }
    ensures plain { (socket : SocketAddr) (peer : IpAddr) → IsPeerOf socket peer → IsPlain peer }
    ensures own { (socket : SocketAddr) (peer : IpAddr) → IsPeerOf socket peer →
        IsPlain (socket_ip socket) → peer ≡ socket_ip socket }
    ensures mapped { (socket : SocketAddr) (peer : IpAddr) (address : Ipv6Addr) →
        IsPeerOf socket peer → socket_ip socket ≡ V6 address →
        IsIpv4Mapped (ipv6_segments address) → (inner : Ipv4Addr) × (peer ≡ V4 inner)
        × (ipv4_octets inner ≡ low_octets address) }
    ensures all { (allow_list : AllowList) (old new : List Arrival) (said says : RefusedPeers)
        (newest : Option Comer) → TakesWaiting allow_list (Some old) said newest (Some new) says →
        (answers : List Arrival) × (new ≡ answers ++ old) × ((length answers ≡ 256)
        ⊎ (fault : Error) × (before : List Arrival) × (answers ≡ Err fault ∷ before)
        × (error_kind fault ≢ Interrupted) × (error_kind fault ≢ ConnectionAborted)) }
    ensures counted { (allow_list : AllowList) (old new : List Arrival) (said says : RefusedPeers)
        (newest : Option Comer) → TakesWaiting allow_list (Some old) said newest (Some new) says →
        (answers : List Arrival) × (refused : List IpAddr) × (new ≡ answers ++ old)
        × Sorts allow_list answers refused newest × (says ≡ counted refused said) }
{}

/// That nobody can be accepted is told at the first fault that says so, and not again until
/// somebody has come. Nothing is told if nobody waits, if somebody came, if he has gone again and
/// if a signal broke the call off. So it is answer by answer, in their order. At each look it
/// follows from all answers of that look, and from what was told before.
pub fn that_nobody_can_be_accepted_is_told_once()
    ensures first { (t : Telling) (fault : Error) → t.is_shut ≡ false → ShutsOut fault →
        told_by (Err fault ∷ []) t ≡ record {
          told = one_more_told fault t.told;
          is_shut = true;
        } }
    ensures again { (t : Telling) (answers : List Arrival) → t.is_shut ≡ true →
        All IsNoComer answers → told_by answers t ≡ t }
    ensures came { (t : Telling) (comer : TcpStream × SocketAddr) →
        told_by (Ok comer ∷ []) t ≡ record t { is_shut = false } }
    ensures waits { (t : Telling) (fault : Error) → error_kind fault ≡ WouldBlock →
        told_by (Err fault ∷ []) t ≡ t }
    ensures goes_on { (t : Telling) (fault : Error) → GoesOn (Err fault) →
        told_by (Err fault ∷ []) t ≡ t }
    ensures in_turn { (t : Telling) (later answers : List Arrival) →
        told_by (later ++ answers) t ≡ told_by later (told_by answers t) }
    ensures look { (old new : List Arrival) (before after : Telling) →
        Tells (Some old) before (Some new) after → (answers : List Arrival)
        × (new ≡ answers ++ old) × (after ≡ told_by answers before) }
{}

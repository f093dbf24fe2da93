//! What an exchange is: the request that went out, and what came of it.
ghost use Rattle.std.specs.Prelude.{◌≡◌, ◌∷◌, ◌++◌, ◌==◌, [], ℕ, false, List, None, map};
ghost use Rattle.std.specs.List.{filter};
ghost use Rattle.ft12.specs.declared.frame.Front.{Front};
ghost use Rattle.ft12.specs.declared.frame.Front.TheVariants.{Whole};
ghost use Rattle.link.specs.Answers.{Frame, answer_of};
ghost use Rattle.link.specs.Exchanges.{Exchanges, OpenExchange, all_of, answer_to, view, views};
ghost use Rattle.link.specs.Exchanges.{with_station, received_octets};
ghost use Rattle.link.specs.Primary.{Primary};
ghost use Rattle.link.specs.Runs.{Call, exchanged_all};
ghost use Rattle.link.specs.Sent.{first_of, sent};

/// Whatever is called, each request that goes out is one exchange of the line, with its station and
/// its moment, and there are no others, in this order. The exchanges with a station are those whose
/// request went to it. All octets that come are the exchange's, until it is closed or its link is
/// given up. Its answer is what the whole frame at the front of its octets says to its request. If
/// no whole frame stands there, it has none.
pub fn each_request_is_an_exchange()
    ensures requests { (p : Primary) (calls : List Call) (e : Exchanges) →
        map first_of (all_of (exchanged_all p calls e)) ≡ map first_of (all_of e) ++ sent p calls }
    ensures station { (front : List ℕ → Front) (station : ℕ) (xs : List OpenExchange) →
        with_station station (views front xs)
        ≡ map (λ x. (view front x).exchange) (filter (λ x. x.station == station) xs) }
    ensures octets { (octets : List ℕ) (x : OpenExchange) → x.closed ≡ false →
        x.given_up ≡ false → (received_octets octets x).octets ≡ x.octets ++ octets }
    ensures answer { (front : List ℕ → Front) (address : ℕ) (x : OpenExchange) (frame : Frame)
        (n : ℕ) → front x.octets ≡ Whole frame n →
        answer_to address (view front x).exchange ≡ answer_of address x.request frame }
    ensures none { (front : List ℕ → Front) (address : ℕ) (x : OpenExchange) →
        ((frame : Frame) (n : ℕ) → front x.octets ≡ Whole frame n → ⊥) →
        answer_to address (view front x).exchange ≡ None }
{}

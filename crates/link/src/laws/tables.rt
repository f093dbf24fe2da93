//! The tables of the link layer are whole.
ghost use Rattle.std.specs.Prelude.{◌≡◌, ◌+◌, ◌/◌, ◌%◌, ◌==◌, ◌⊎◌, ℕ, Bool, List, []};
ghost use Rattle.std.specs.Prelude.{if◌then◌else◌};
ghost use Rattle.arrayvec.specs.ArrayVec.{ArrayVec};
ghost use Rattle.link.specs.Answers.{Single, Fixed, Data, Class1, Class2, Command, Status};
ghost use Rattle.link.specs.Answers.{Reset, Counted};
ghost use Rattle.link.specs.Requests.{request_frame, reading_of, Foreign, Unknown, Asks};
ghost use Rattle.link.specs.Secondary.{data_frame};
ghost use Rattle.link.specs.Tables.{plain_row, counted_row, reading_in};

/// Each request has one control octet, whatever the address of its station: PRM 1, and for a
/// service FCV 1 and FCB in bit 5. Of the frames to a station, by each of the sixteen functions of
/// a primary station, with FCV or without, those in the rows are requests that it knows, and no
/// others. A frame that a secondary station sent (PRM 0), or that has another address, asks nothing
/// of it.
pub fn requests_are_whole()
    ensures frames { (address : ℕ) (fcb : Bool) (asdu : List ℕ) →
        (request_frame address Status ≡ Fixed 0x49 address)
        × (request_frame address Reset ≡ Fixed 0x40 address)
        × (request_frame address (Counted fcb Class1) ≡ Fixed (if fcb then 0x7A else 0x5A) address)
        × (request_frame address (Counted fcb Class2) ≡ Fixed (if fcb then 0x7B else 0x5B) address)
        × (request_frame address (Counted fcb (Command asdu))
        ≡ data_frame (if fcb then 0x73 else 0x53) address asdu) }
    ensures plain { (station octet : ℕ) → octet / 64 % 2 ≡ 1 → octet / 16 % 2 ≡ 0 →
        reading_of station (Fixed octet station) ≡ reading_in (octet % 16) plain_row }
    ensures counted { (station octet : ℕ) → octet / 64 % 2 ≡ 1 → octet / 16 % 2 ≡ 1 →
        reading_of station (Fixed octet station)
        ≡ reading_in (octet % 16) (counted_row (octet / 32 % 2 == 1)) }
    ensures user_data { (station octet : ℕ) (body : ArrayVec ℕ) → octet / 64 % 2 ≡ 1 →
        octet / 16 % 2 ≡ 1 → octet % 16 ≡ 3 → (body.items ≡ [] → ⊥) →
        reading_of station (Data octet station body)
        ≡ Asks (Counted (octet / 32 % 2 == 1) (Command body.items)) }
    ensures other_data { (station octet : ℕ) (body : ArrayVec ℕ) → octet / 64 % 2 ≡ 1 →
        (octet / 16 % 2 ≡ 0) ⊎ ((octet % 16 ≡ 3 → ⊥) ⊎ (body.items ≡ [])) →
        reading_of station (Data octet station body) ≡ Unknown }
    ensures foreign { (station octet address : ℕ) (body : ArrayVec ℕ) →
        (octet / 64 % 2 ≡ 0) ⊎ (address ≡ station → ⊥) →
        (reading_of station (Fixed octet address) ≡ Foreign)
        × (reading_of station (Data octet address body) ≡ Foreign)
        × (reading_of station Single ≡ Foreign) }
{}

//! Losses and calls by worked examples: literal octets.
ghost use Rattle.std.specs.Prelude.{◌≡◌, ◌∷◌, [], true, false};
ghost use Rattle.std.specs.Prelude.{Some, None};
ghost use Rattle.ft12.specs.declared.frame.Frame.TheVariants.{Single, Fixed};
ghost use Rattle.ft12.specs.declared.frame.LinkSize.TheVariants.{One, Two};
ghost use Rattle.gateway.specs.Log.{LineIn, Opened, TcpIn, CutOff, Ticked, WallIs, LineOut};
ghost use Rattle.gateway.specs.Log.{TcpOut, Closed, Came, Went};
ghost use Rattle.session.specs.declared.kinds.Close.TheVariants.{Grammar};
ghost use Rattle.sim.specs.declared.directive.Class.TheVariants as class;
ghost use Rattle.sim.specs.declared.directive.Directive.TheVariants.{Turns, Ack, Wall, Report};
ghost use Rattle.sim.specs.declared.directive.Directive.TheVariants.{LoseRequest, LoseAnswer};
ghost use Rattle.sim.specs.declared.directive.Directive.TheVariants.{SpoilAnswer, Cut, Send};
ghost use Rattle.sim.specs.declared.directive.RequestFate.TheVariants.{RequestLost, AnswerLost};
ghost use Rattle.sim.specs.declared.directive.RequestFate.TheVariants.{AnswerSpoilt};
ghost use Rattle.sim.specs.declared.directive.RequestFate.TheVariants.{Answered};
ghost use Rattle.sim.specs.Calls.{calls_in, moment_of, event_at, lasting, next_moment};
ghost use Rattle.sim.specs.Centres.{shut, opened, centre_of, data_apdu};
ghost use Rattle.sim.specs.Examples.{started, busy, command, with_script};
ghost use Rattle.sim.specs.Lives.{Plan, arriving, later, requests_in, waiting_in};
ghost use Rattle.sim.specs.Losses.{turns_of, ack_of, wall_at, is_cut_at, sent_at, fate_of};
ghost use Rattle.sim.specs.Losses.{report_said};

/// What a script has become of a request, of an answer and of a call, and what it says if it has no
/// such line.
pub fn losses_by_example()
    ensures fates { (fate_of (SpoilAnswer 1 4 ∷ LoseAnswer 1 ∷ LoseRequest 1 ∷ []) 1 ≡ RequestLost)
        × (fate_of (SpoilAnswer 1 4 ∷ LoseAnswer 1 ∷ []) 1 ≡ AnswerLost)
        × (fate_of (SpoilAnswer 1 4 ∷ []) 1 ≡ AnswerSpoilt 4)
        × (fate_of (SpoilAnswer 2 4 ∷ LoseAnswer 2 ∷ LoseRequest 2 ∷ []) 1 ≡ Answered) }
    // The status of station 1: FT1.2, function 11.
    ensures answers { (arriving One Answered (Some (Fixed 0x0B 1))
        ≡ Some (0x10 ∷ 0x0B ∷ 0x01 ∷ 0x0C ∷ 0x16 ∷ []))
        × (arriving One Answered (Some Single) ≡ Some (0xE5 ∷ []))
        × (arriving One (AnswerSpoilt 1) (Some (Fixed 0x0B 1))
        ≡ Some (0x10 ∷ 0xF4 ∷ 0x01 ∷ 0x0C ∷ 0x16 ∷ []))
        × (arriving One (AnswerSpoilt 8) (Some (Fixed 0x0B 1))
        ≡ Some (0x10 ∷ 0x0B ∷ 0x01 ∷ 0xF3 ∷ 0x16 ∷ []))
        × (arriving One AnswerLost (Some Single) ≡ None)
        × (arriving One RequestLost (Some Single) ≡ None) × (arriving One Answered None ≡ None)
        × (later (Some Single) None ≡ Some Single)
        × (later None (Some Single) ≡ Some Single) }
    ensures numbers { (turns_of (Ack 5 ∷ Turns 9 ∷ []) ≡ 9) × (turns_of [] ≡ 0)
        × (ack_of (Turns 9 ∷ Ack 5 ∷ []) ≡ 5) × (ack_of (Ack 32767 ∷ []) ≡ 32767)
        × (ack_of (Turns 9 ∷ []) ≡ 1)
        × (wall_at (Wall 17 ∷ []) 1 ≡ Some 17) × (wall_at (Wall 17 ∷ []) 2 ≡ None)
        × (wall_at [] 1 ≡ None) }
    ensures calls { (is_cut_at (Cut 2 ∷ Cut 4 ∷ []) 4 ≡ true)
        × (is_cut_at (Cut 2 ∷ Cut 4 ∷ []) 3 ≡ false)
        × (sent_at (Send 2 [] ∷ Send 3 command ∷ []) 3 ≡ Some command)
        × (sent_at (Send 2 command ∷ []) 3 ≡ None) }
    ensures reports { (report_said 0 class.One (Report 0 class.One command) ≡ command ∷ [])
        × (report_said 0 class.One (Report 1 class.One command) ≡ [])
        × (report_said 0 class.One (Report 0 class.Two command) ≡ [])
        × (report_said 2 class.Two (Report 2 class.Two command) ≡ command ∷ []) }
    // An answer waits until it is given, or the next request goes out.
    ensures waiting { (plan : Plan) →
        (waiting_in (with_script plan []) (Went 1 (LineOut []) ∷ []) (Some Single ∷ [])
        ≡ Some (0xE5 ∷ []))
        × (waiting_in (with_script plan []) (Came 2 Ticked ∷ Went 1 (LineOut []) ∷ [])
        (Some Single ∷ []) ≡ Some (0xE5 ∷ []))
        × (waiting_in (with_script plan []) (Came 2 CutOff ∷ Went 1 (LineOut []) ∷ [])
        (Some Single ∷ []) ≡ Some (0xE5 ∷ []))
        × (waiting_in (with_script plan []) (Came 2 (LineIn []) ∷ Went 1 (LineOut []) ∷ [])
        (Some Single ∷ []) ≡ None)
        × (waiting_in (with_script plan (LoseAnswer 2 ∷ []))
        (Went 3 (LineOut []) ∷ Came 2 Ticked ∷ Went 1 (LineOut []) ∷ [])
        (Some Single ∷ Some Single ∷ []) ≡ None)
        × (requests_in (Went 3 (LineOut []) ∷ Came 2 Ticked ∷ Went 1 (LineOut []) ∷ []) ≡ 2) }
{}

/// What each call gives, the first of seven that applies, and how long it takes; and what the
/// control centre knows and sends (IEC 60870-5-104, 5.1 and 5.3).
pub fn calls_by_example()
    ensures events { (event_at (Wall 17 ∷ []) 1 shut None ≡ WallIs 17)
        × (event_at (Wall 17 ∷ []) 2 shut None ≡ Opened)
        × (event_at (Cut 2 ∷ []) 2 shut None ≡ Opened)
        × (event_at (Cut 2 ∷ []) 2 opened None ≡ CutOff)
        × (event_at (Send 2 command ∷ Cut 2 ∷ []) 2 (started 1 2 0) None ≡ CutOff)
        × (event_at (Send 3 command ∷ []) 3 opened (Some (0xE5 ∷ []))
        ≡ TcpIn (0x68 ∷ 0x04 ∷ 0x07 ∷ 0x00 ∷ 0x00 ∷ 0x00 ∷ []))
        × (event_at (Send 3 command ∷ []) 3 (started 1 2 0) (Some (0xE5 ∷ []))
        ≡ TcpIn (0x68 ∷ 0x0E ∷ 0x02 ∷ 0x00 ∷ 0x04 ∷ 0x00 ∷ command))
        × (event_at [] 3 (started 1 2 1) (Some (0xE5 ∷ []))
        ≡ TcpIn (0x68 ∷ 0x04 ∷ 0x01 ∷ 0x00 ∷ 0x04 ∷ 0x00 ∷ []))
        × (event_at (Ack 2 ∷ []) 3 (started 1 2 1) (Some (0xE5 ∷ [])) ≡ LineIn (0xE5 ∷ []))
        × (event_at (Ack 2 ∷ []) 3 (started 1 2 1) None ≡ Ticked) }
    ensures lasts { (lasting 200 Ticked ≡ 200) × (lasting 200 Opened ≡ 1)
        × (lasting 200 CutOff ≡ 1) × (lasting 200 (WallIs 17) ≡ 1)
        × (lasting 200 (LineIn (0xE5 ∷ [])) ≡ 1) }
    ensures counts { (calls_in (Went 5 (LineOut []) ∷ Came 5 Ticked ∷ Came 4 Opened ∷ []) ≡ 2)
        × (moment_of (Went 5 (LineOut []) ∷ Came 5 Ticked ∷ Came 4 Opened ∷ []) ≡ 5)
        × (moment_of [] ≡ 0)
        × ((plan : Plan) → next_moment plan (Came 999999999999999 Ticked ∷ []) Opened
        ≡ 999999999999999) }
    ensures centre { (centre_of (Came 1 Opened ∷ []) ≡ opened)
        × (centre_of (Came 2 (TcpIn (0x68 ∷ 0x04 ∷ 0x07 ∷ [])) ∷ Came 1 Opened ∷ [])
        ≡ started 0 0 0)
        × (centre_of (Went 3 (TcpOut (0x68 ∷ 0x0E ∷ 0x00 ∷ []))
        ∷ Came 2 (TcpIn (0x68 ∷ 0x04 ∷ 0x07 ∷ [])) ∷ Came 1 Opened ∷ []) ≡ started 0 1 0)
        × (centre_of (Came 4 (TcpIn (0x68 ∷ 0x0E ∷ 0x00 ∷ [])) ∷ Went 3 (TcpOut (0x68 ∷ 0x0E ∷ 0x00
        ∷ [])) ∷ Came 2 (TcpIn (0x68 ∷ 0x04 ∷ 0x07 ∷ [])) ∷ Came 1 Opened ∷ []) ≡ started 1 1 1)
        × (centre_of (Came 4 (TcpIn (0x68 ∷ 0x04 ∷ 0x01 ∷ [])) ∷ Went 3 (TcpOut (0x68 ∷ 0x0E ∷ 0x00
        ∷ [])) ∷ Came 2 (TcpIn (0x68 ∷ 0x04 ∷ 0x07 ∷ [])) ∷ Came 1 Opened ∷ []) ≡ started 0 1 1)
        × (centre_of (Went 2 (TcpOut (0x68 ∷ 0x04 ∷ 0x0B ∷ [])) ∷ Came 1 Opened ∷ []) ≡ opened)
        × (centre_of (Went 2 (Closed Grammar) ∷ Came 1 Opened ∷ []) ≡ shut)
        × (centre_of (Came 2 CutOff ∷ Came 1 Opened ∷ []) ≡ shut) × (centre_of [] ≡ shut)
        × (centre_of (Came 3 Opened ∷ Came 2 (TcpIn (0x68 ∷ 0x04 ∷ 0x07 ∷ [])) ∷ Came 1 Opened ∷ [])
        ≡ opened) }
    // Nothing is left of a connection once it is over.
    ensures reopened { (centre_of busy ≡ started 1 1 1)
        × (centre_of (Came 5 Opened ∷ busy) ≡ opened)
        × (centre_of (Came 5 CutOff ∷ busy) ≡ shut)
        × (centre_of (Went 5 (Closed Grammar) ∷ busy) ≡ shut)
        × (centre_of (Came 6 Opened ∷ Came 5 CutOff ∷ busy) ≡ opened) }
    ensures turned_round { data_apdu (started 32769 32770 0) command
        ≡ 0x68 ∷ 0x0E ∷ 0x02 ∷ 0x00 ∷ 0x04 ∷ 0x00 ∷ command }
{}

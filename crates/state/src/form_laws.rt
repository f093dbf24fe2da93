//! The form in which a state is kept: states that older versions wrote are read.
ghost use Rattle.std.specs.Fmt.{decimal};
ghost use Rattle.std.specs.List.{All};
ghost use Rattle.std.specs.Prelude.{◌≡◌, ◌==◌, [], ◌∷◌, ◌++◌, ℕ, Bool, List, None, Some, codes};
ghost use Rattle.std.specs.Prelude.{false, length, map, true};
ghost use Rattle.apci.specs.Assembly.{so_far_numbers};
ghost use Rattle.apci.specs.declared.apdu.Uf.TheVariants.{StartAct, StartCon, StopAct, StopCon};
ghost use Rattle.apci.specs.declared.apdu.Uf.TheVariants.{TestAct, TestCon};
ghost use Rattle.command.specs.Command.{element_octets};
ghost use Rattle.command.specs.Restored.{commands_lines, list_lines};
ghost use Rattle.command.specs.Saved.{line_numbers, selection_numbers, sending_numbers};
ghost use Rattle.command.specs.Saved.{stage_detail, stage_number, tag_numbers, waiting_numbers};
ghost use Rattle.command.specs.declared.selection.SelectStage.TheVariants.{Accepted, Live, Queued};
ghost use Rattle.command.specs.declared.selection.SelectStage.TheVariants.{Sent};
ghost use Rattle.command.specs.declared.selection.Selection.{Selection};
ghost use Rattle.command.specs.declared.tags.Sending.{Sending};
ghost use Rattle.command.specs.declared.waiting.Line.TheVariants.{CutOff, Free, Holds};
ghost use Rattle.command.specs.declared.waiting.Waiting.{Waiting};
ghost use Rattle.elements.specs.declared.tag.Cp56.{Cp56};
ghost use Rattle.events.specs.Queue.{Queue};
ghost use Rattle.events.specs.Restored.{queue_lines};
ghost use Rattle.gateway.specs.Restored.{clock_line, state_lines, tally_line};
ghost use Rattle.gateway.specs.State.{State};
ghost use Rattle.gateway.specs.declared.counts.Tally.{Tally};
ghost use Rattle.gateway.specs.declared.walls.Wall.{Wall};
ghost use Rattle.hex.specs.Hex.{IsBytes, encode_lower};
ghost use Rattle.link.specs.Primary.{Outstanding, Primary};
ghost use Rattle.link.specs.Restored.{asked_numbers, awaited_numbers, phase_numbers};
ghost use Rattle.link.specs.Restored.{primary_lines, received_numbers};
ghost use Rattle.link.specs.declared.procedure.Silence.{Silence};
ghost use Rattle.link.specs.declared.procedure.Probed.TheVariants.{Never, Once, Twice};
ghost use Rattle.link.specs.Saved.{bit_number, held_number, lines_of, link_numbers};
ghost use Rattle.link.specs.Saved.{service_numbers, unsure_numbers};
ghost use Rattle.link.specs.declared.procedure.Link.TheVariants.{Available, Down, Held, Next};
ghost use Rattle.link.specs.declared.service.Asked.TheVariants.{Counted, Reset, Status};
ghost use Rattle.link.specs.declared.service.Service.{Service};
ghost use Rattle.link.specs.declared.service.Service.TheVariants.{Class1, Class2, Command};
ghost use Rattle.link.specs.declared.turn.Phase.TheVariants.{Class1Polling, Commanding, Over};
ghost use Rattle.link.specs.declared.turn.Phase.TheVariants.{Polling, Starting};
ghost use Rattle.link.specs.declared.turn.StationState.{StationState};
ghost use Rattle.session.specs.Restored.{frame_lines, kind_number, moment_numbers, reply_number};
ghost use Rattle.session.specs.Restored.{session_lines, transfer_number};
ghost use Rattle.session.specs.Session.{Session};
ghost use Rattle.session.specs.declared.kinds.FrameOrigin.TheVariants.{Own};
ghost use Rattle.session.specs.declared.kinds.FrameOrigin.TheVariants as origins;
ghost use Rattle.session.specs.declared.kinds.Transfer.TheVariants.{Closed, Started, Stopped};
ghost use Rattle.session.specs.declared.kinds.Transfer.TheVariants.{Stopping};
ghost use Rattle.session.specs.declared.kinds.Unacknowledged.{Unacknowledged};
ghost use Rattle.statetext.specs.Text.{line_in, lines_in, text_of_numbers};

/// The lines of a state, in their order, and the numbers of each. A reader takes back what was put
/// in whatever form; so if two numbers were exchanged, or each bit were put the other way round, a
/// new version would misread the states that older ones wrote, with each frame count bit. Whoever
/// changes one of these lines counts up the number of the form (docs/CHANGING.md).
pub fn states_are_kept_in_this_form()
    ensures order { (s : State) → state_lines s ≡ clock_line s ∷ tally_line s.serial.counts
        ∷ ((primary_lines s.serial.line ++ commands_lines s.serial.commands)
        ++ (so_far_numbers s.centre.so_far ∷ (session_lines s.centre.session
        ++ queue_lines s.centre.queue))) }
    ensures no_clock { (s : State) → s.wall ≡ None → clock_line s ≡ s.moment ∷ [] }
    ensures clock { (s : State) (wall : Wall) → s.wall ≡ Some wall →
        clock_line s ≡ s.moment ∷ wall.moment ∷ wall.number ∷ [] }
    ensures counts { (t : Tally) → tally_line t ≡ t.skipped ∷ t.mirrors ∷ t.lost ∷ [] }
    ensures so_far { (octets : List ℕ) → (so_far_numbers None ≡ 0 ∷ [])
        × (so_far_numbers (Some octets) ≡ 1 ∷ octets) }
    // The queue: how many pieces, and how many of them were sent.
    ensures queue { (q : Queue) → queue_lines q
        ≡ (length (q.sent ++ q.unsent) ∷ length q.sent ∷ []) ∷ (q.sent ++ q.unsent) }
{}

/// The lines of the line's side: whose turn it is, what came of the answer, what is awaited, and
/// three lines for each station.
pub fn links_are_kept_in_this_form()
    ensures line { (p : Primary) → primary_lines p
        ≡ (p.turn ∷ bit_number p.again ∷ p.spoilt ∷ phase_numbers p.phase)
        ∷ received_numbers p.outstanding ∷ awaited_numbers p.outstanding ∷ lines_of p.stations }
    ensures phases { (sent : ℕ) → (phase_numbers Starting ≡ 0 ∷ [])
        × (phase_numbers Commanding ≡ 1 ∷ []) × (phase_numbers Polling ≡ 2 ∷ [])
        × (phase_numbers (Class1Polling sent) ≡ 3 ∷ sent ∷ []) × (phase_numbers Over ≡ 4 ∷ []) }
    ensures received { (o : Outstanding) (octets : List ℕ) → (received_numbers None ≡ 0 ∷ [])
        × (o.arrived ≡ None → received_numbers (Some o) ≡ 0 ∷ [])
        × (o.arrived ≡ Some octets → received_numbers (Some o) ≡ 1 ∷ octets) }
    ensures awaited { (o : Outstanding) → (awaited_numbers None ≡ 0 ∷ [])
        × (awaited_numbers (Some o)
        ≡ 1 ∷ o.since ∷ bit_number o.has_octets ∷ asked_numbers o.request) }
    ensures requests { (fcb : Bool) (service : Service) → (asked_numbers Status ≡ 0 ∷ [])
        × (asked_numbers Reset ≡ 1 ∷ [])
        × (asked_numbers (Counted fcb service)
        ≡ 2 ∷ bit_number fcb ∷ service_numbers service) }
    ensures services { (asdu : List ℕ) → (service_numbers Class1 ≡ 1 ∷ [])
        × (service_numbers Class2 ≡ 2 ∷ []) × (service_numbers (Command asdu) ≡ 3 ∷ asdu) }
    ensures stations { (s : StationState) (others : List StationState) → (lines_of [] ≡ [])
        × (lines_of (s ∷ others)
        ≡ (s.address ∷ bit_number s.acd ∷ bit_number s.dfc ∷ s.session.number
        ∷ bit_number s.session.has_gap ∷ unsure_numbers s.unsure) ∷ link_numbers s.link ∷ (0 ∷ [])
        ∷ lines_of others) }
    // A station that is sure stands as it did before stations could be unsure.
    ensures unsure { (unsure_numbers false ≡ []) × (unsure_numbers true ≡ 1 ∷ []) }
    ensures links { (fcb : Bool) (silence : Silence) (service : Service) →
        (link_numbers Down ≡ 0 ∷ [])
        × (link_numbers Available ≡ 1 ∷ [])
        × (link_numbers (Next fcb) ≡ 2 ∷ bit_number fcb ∷ [])
        × (link_numbers (Held fcb service silence)
        ≡ held_number silence.spent silence.probed ∷ bit_number fcb ∷ silence.missed
        ∷ service_numbers service) }
    ensures held { (held_number false Never ≡ 3) × (held_number true Never ≡ 4)
        × (held_number false Once ≡ 5) × (held_number true Once ≡ 6)
        × (held_number false Twice ≡ 7) × (held_number true Twice ≡ 8) }
    ensures bits { (bit_number true ≡ 1) × (bit_number false ≡ 0) }
{}

/// The lines of the session: its counters, what is due, and a line for each frame that isn't
/// acknowledged.
pub fn sessions_are_kept_in_this_form()
    ensures session { (s : Session) → session_lines s
        ≡ (transfer_number s.transfer ∷ s.next_sent ∷ s.next_received ∷ s.acked_queue
        ∷ s.acked_own ∷ [])
        ∷ (length s.unacknowledged ∷ s.unconfirmed ∷ s.unconfirmed_since ∷ s.last_frame
        ∷ reply_number s.reply ∷ moment_numbers s.test_sent)
        ∷ frame_lines s.unacknowledged }
    ensures frames { (frame : Unacknowledged) (frames : List Unacknowledged) →
        (frame_lines [] ≡ []) × (frame_lines (frame ∷ frames)
        ≡ (kind_number frame.kind ∷ frame.moment ∷ []) ∷ frame_lines frames) }
    ensures kinds { (kind_number origins.Queue ≡ 0) × (kind_number Own ≡ 1) }
    ensures transfers { (transfer_number Closed ≡ 0) × (transfer_number Stopped ≡ 1)
        × (transfer_number Started ≡ 2) × (transfer_number Stopping ≡ 3) }
    ensures replies { (reply_number None ≡ 0) × (reply_number (Some StartAct) ≡ 1)
        × (reply_number (Some StartCon) ≡ 2) × (reply_number (Some StopAct) ≡ 3)
        × (reply_number (Some StopCon) ≡ 4) × (reply_number (Some TestAct) ≡ 5)
        × (reply_number (Some TestCon) ≡ 6) }
    ensures moments { (moment : ℕ) → (moment_numbers None ≡ [])
        × (moment_numbers (Some moment) ≡ moment ∷ []) }
{}

/// The lines of commands: those that wait, what stands on each station's line, selections, first
/// sendings by which tags are fresh, and own answers. Before each but the second stands a line with
/// their number.
pub fn commands_are_kept_in_this_form()
    ensures all { (s : State) → let c = s.serial.commands in commands_lines c
        ≡ list_lines (map waiting_numbers c.waiting) ++ (map line_numbers c.lines
        ++ (list_lines (map selection_numbers c.selections)
        ++ (list_lines (map sending_numbers c.sendings) ++ list_lines c.answers))) }
    ensures lists { (lines : List (List ℕ)) → list_lines lines ≡ (length lines ∷ []) ∷ lines }
    ensures waiting { (w : Waiting) →
        waiting_numbers w ≡ w.station ∷ length w.received ∷ (w.received ++ w.octets) }
    ensures lines { (received : List ℕ) → (line_numbers Free ≡ 0 ∷ [])
        × (line_numbers (Holds received) ≡ 1 ∷ received) × (line_numbers CutOff ≡ 2 ∷ []) }
    ensures selections { (z : Selection) → selection_numbers z ≡ z.station ∷ z.came
        ∷ ((z.command.kind ∷ z.command.received ∷ z.command.cause ∷ z.command.originator
        ∷ z.command.ca ∷ z.command.address ∷ [])
        ++ (stage_number z.stage ∷ stage_detail z.stage ∷ element_octets z.command.element)) }
    ensures stages { (n : ℕ) → (stage_number (Queued n) ≡ 0) × (stage_detail (Queued n) ≡ n)
        × (stage_number Sent ≡ 1) × (stage_detail Sent ≡ 0)
        × (stage_number Accepted ≡ 2) × (stage_detail Accepted ≡ 0)
        × (stage_number (Live n) ≡ 3) × (stage_detail (Live n) ≡ n) }
    ensures sendings { (z : Sending) → sending_numbers z
        ≡ z.target.kind ∷ z.target.ca ∷ z.target.address ∷ tag_numbers z.tag }
    ensures tags { (tag : Cp56) → (tag_numbers None ≡ []) × (tag_numbers (Some tag) ≡ tag.0) }
{}

/// How a line stands in the text: numbers in decimal digits, with a space between two, and octets,
/// as those of the settings at the head, in hexadecimal behind an `x`. A line feed ends each line.
pub fn lines_of_a_state_are_these_texts()
    ensures numbers { (n m : ℕ) (ns : List ℕ) → (text_of_numbers (n ∷ []) ≡ decimal n)
        × (text_of_numbers (n ∷ m ∷ ns) ≡ decimal n ++ 32 ∷ text_of_numbers (m ∷ ns)) }
    ensures octets { (octets : List ℕ) → IsBytes octets →
        line_in (codes "x" ++ encode_lower octets) ≡ Some octets }
    ensures lines { (row rest line : List ℕ) → All (λ c. (c == 10) ≡ false) row →
        line_in row ≡ Some line → lines_in (row ++ 10 ∷ rest) ≡ line ∷ lines_in rest }
{}

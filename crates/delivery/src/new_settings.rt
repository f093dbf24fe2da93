//! What goes on when a gateway goes on with other settings.
ghost use Rattle.std.specs.Prelude.{◌≡◌, ◌<◌, ℕ, Bool, [], Some, None, false};
ghost use Rattle.session.specs.Session.{is_open};
ghost use Rattle.gateway.specs.Carried.{carried};
ghost use Rattle.gateway.specs.Config.{Settings};
ghost use Rattle.gateway.specs.Setups.{setup_of};
ghost use Rattle.gateway.specs.State.{State};

/// When a gateway goes on with other settings, each of its parts has them from then on: the line,
/// commands, the session, the queue and the reader of reports. So what is promised of a gateway
/// with these settings is promised by their own numbers. No connection is left, nor octets of one,
/// no exchange is outstanding, and no gap is left to be reported.
pub fn new_settings_are_taken_up()
    ensures line { (goes_on : Bool) (before now : Settings) (s : State) →
        ((carried goes_on before now s).serial.line.settings ≡ (setup_of now).link)
        × ((carried goes_on before now s).sizes ≡ (setup_of now).sizes) }
    ensures commands { (goes_on : Bool) (before now : Settings) (s : State) →
        ((carried goes_on before now s).serial.commands.stations ≡ (setup_of now).stations)
        × ((carried goes_on before now s).serial.commands.sizes ≡ (setup_of now).sizes)
        × ((carried goes_on before now s).serial.commands.select_ms ≡ (setup_of now).select_ms)
        × ((carried goes_on before now s).serial.commands.max_age_ms
        ≡ (setup_of now).max_age_ms) }
    ensures session { (goes_on : Bool) (before now : Settings) (s : State) →
        ((carried goes_on before now s).centre.session.k ≡ (setup_of now).session.k)
        × ((carried goes_on before now s).centre.session.w ≡ (setup_of now).session.w)
        × ((carried goes_on before now s).centre.session.t1 ≡ (setup_of now).session.t1)
        × ((carried goes_on before now s).centre.session.t2 ≡ (setup_of now).session.t2)
        × ((carried goes_on before now s).centre.session.t3 ≡ (setup_of now).session.t3) }
    ensures queue { (goes_on : Bool) (before now : Settings) (s : State) →
        (carried goes_on before now s).centre.queue.places ≡ (setup_of now).places }
    ensures nothing_left { (goes_on : Bool) (before now : Settings) (s : State) →
        (is_open (carried goes_on before now s).centre.session ≡ false)
        × ((carried goes_on before now s).centre.so_far ≡ Some [])
        × ((carried goes_on before now s).serial.line.outstanding ≡ None)
        × ((carried goes_on before now s).serial.gap ≡ None) }
{}

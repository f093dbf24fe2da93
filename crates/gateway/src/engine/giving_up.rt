//! A restart ends the connection, and gives up each command without an answer.
ghost use Rattle.std.specs.Prelude.{◌≡◌, ◌<◌, [], ◌∷◌, ℕ, true, false, length, Some};
ghost use Rattle.link.specs.Turns.{station_at};
ghost use Rattle.link.specs.Leave.{is_polling};
ghost use Rattle.link.specs.Carried.{awaits_command, station_given_up, station_doubted};
ghost use Rattle.session.specs.Session.{is_open};
ghost use Rattle.gateway.specs.Carried.{link_given_up, command_given_up, without_commands};
ghost use Rattle.gateway.specs.Carried.{commands_given_up_upto, doubted_serial};
ghost use Rattle.gateway.specs.Carried.{restarted};
ghost use Rattle.gateway.specs.State.{with_serial, disconnected, IsBetweenSteps};
ghost use Rattle.gateway.specs.Log.{Log, Restarted, Came};
ghost use Rattle.gateway.specs.Reports.{Setup};
ghost use Rattle.gateway.specs.Agrees.{Follows, Rests};

use super::Gateway;
use super::serial::SerialSide;
use link::{giving_up_is_for_one_station, giving_up_is_logged, restarts_change_no_link};

impl SerialSide {
    /// Gives up the link to a station, and with it the command that stands on its line.
    pub(super) fn give_up_link(&mut self, station: usize)
        requires { station < length self.old.line.stations }
        ensures { self.new ≡ link_given_up station self.old }
    {
        self.line.give_up(station);
        self.give_up(station);
    }

    /// Gives up the link to a station whose latest service is a command without an answer.
    fn give_up_command(&mut self, station: usize)
        requires { station < length self.old.line.stations }
        ensures state { self.new ≡ command_given_up station self.old }
        ensures number { length self.new.line.stations ≡ length self.old.line.stations }
        ensures polls { is_polling self.new.line ≡ true → is_polling self.old.line ≡ true }
    {
        giving_up_is_for_one_station();
        if self.line.awaits_command(station) {
            self.give_up_link(station);
        }
    }

    /// The same for all stations, from the first on.
    fn give_up_each_command(&mut self)
        ensures state { self.new
            ≡ commands_given_up_upto (length self.old.line.stations) self.old }
        ensures polls { is_polling self.new.line ≡ true → is_polling self.old.line ≡ true }
    {
        for station in 0..self.line.count() {
            self.give_up_command(station);
        }
    }

    /// The same for all stations, of which each may have been restarted, too.
    fn give_up_commands(&mut self)
        ensures state { self.new ≡ without_commands self.old }
        ensures polls { is_polling self.new.line ≡ true → is_polling self.old.line ≡ true }
    {
        restarts_change_no_link();
        self.give_up_each_command();
        // Power of the whole substation may have been cut: whether a station has kept its link
        // shows once it answers a service (docs/DECISIONS.md, "A station that was restarted, too").
        self.line.doubt();
    }
}

impl Gateway {
    /// Gives up each command without an answer, whether it is on the line or held.
    fn give_up_commands(&mut self)
        ensures { self.new ≡ with_serial (without_commands self.old.serial) self.old }
    {
        self.serial.give_up_commands();
    }

    /// Ends the connection, as a cut does, and gives up each command without an answer, whether it
    /// is on the line or held: so behind a restart no command that came before it goes out, neither
    /// again nor for the first time. Commands that wait, selections and own answers are gone.
    ///
    /// The link of a station whose command is given up is down, and is reset before its next
    /// service. If an exchange with it was outstanding, that is over, and the turn with it. The
    /// command is counted as lost, as when a station goes down. No other link changes. And of no
    /// station is it known whether it was restarted, too, until it answers a service. The queue
    /// keeps each piece that no connection has acknowledged. A gateway that followed its log
    /// between two steps then follows the log with this restart, so each promise on a log holds of
    /// all its lives together.
    pub fn restart(&mut self)
        ensures state { self.new ≡ restarted self.old }
        ensures shut { is_open self.new.centre.session ≡ false }
        ensures waiting { self.new.serial.commands.waiting ≡ [] }
        ensures selections { self.new.serial.commands.selections ≡ [] }
        ensures answers { self.new.serial.commands.answers ≡ [] }
        ensures done { (k : ℕ) → k < length self.old.serial.line.stations →
            awaits_command self.new.serial.line k ≡ false }
        ensures down { (k : ℕ) → k < length self.old.serial.line.stations →
            awaits_command self.old.serial.line k ≡ true →
            station_at self.new.serial.line.stations k
            ≡ station_doubted (station_given_up (station_at self.old.serial.line.stations k)) }
        ensures others { (k : ℕ) → k < length self.old.serial.line.stations →
            awaits_command self.old.serial.line k ≡ false →
            station_at self.new.serial.line.stations k
            ≡ station_doubted (station_at self.old.serial.line.stations k) }
        ensures unchanged { ((k : ℕ) → k < length self.old.serial.line.stations →
            awaits_command self.old.serial.line k ≡ false) →
            self.new ≡ disconnected (with_serial (doubted_serial self.old.serial) self.old) }
        ensures between { IsBetweenSteps self.old → IsBetweenSteps self.new }
        ensures follows { (p : Setup) (log : Log) →
            Follows p self.old (Some log) → Rests p (Some log) →
            Follows p self.new (Some (Came self.old.moment Restarted ∷ log)) }
    {
        giving_up_is_for_one_station();
        giving_up_is_logged();
        restarts_change_no_link();
        self.give_up_commands();
        self.disconnect();
    }
}

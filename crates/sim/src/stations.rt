//! Outstations to try a control centre with: those of a `sim` script, behind a socket at which a
//! gateway finds them as behind a serial device server, with lines of their own between those of
//! the script.
mod cue;
mod cue_line;
mod late;
mod listeners;
mod outstations;
mod place;
mod playing;
mod reading;
mod replies;
mod scenario;
mod timed_server;

pub use self::cue::{Cue, RestartTimer, Timer};
pub use self::listeners::{GatewaySocket, LineListener};
pub use self::outstations::Outstations;
pub use self::place::OutstationServer;
pub use self::playing::{play, serve};
pub use self::reading::read_scenario;
pub use self::scenario::Scenario;
pub use self::timed_server::TimedServer;

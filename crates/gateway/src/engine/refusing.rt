//! By which rule an ASDU of the control centre was refused.
ghost use Rattle.std.specs.Prelude.{◌≡◌, ◌≤◌, length};
ghost use Rattle.command.specs.Refusals.{glance_of, seen_judged};
ghost use Rattle.gateway.specs.State.{wall_now};

use super::Gateway;
use command::{Glance, Refusal};

impl Gateway {
    /// What the judgement of an ASDU looks at now, between two steps.
    pub fn glance(&self) -> Glance
        ensures { result ≡ glance_of self.now.serial.commands }
    {
        self.serial.commands.glance()
    }

    /// By which rule an ASDU was refused that came in the latest step, or none if it went on to its
    /// station, by a glance that was taken before that step. The glance then is what it would have
    /// been after the judgement: so the ASDUs of a step are asked for in their order.
    /// ([`command::Commands::refusal_at`] says that this is the rule of the judgement itself.)
    pub fn refusal_at(&self, glance: &mut Glance, octets: &[u8]) -> Option<Refusal>
        requires { 9 ≤ length octets.now }
        ensures { (result, glance.new) ≡ seen_judged self.now.serial.commands octets.now
            self.now.moment (wall_now self.now) glance.old }
    {
        self.serial
            .commands
            .refusal_at(glance, octets, self.moment, self.wall())
    }
}

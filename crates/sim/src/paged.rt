//! A simulated line prints its actions on a page.
ghost use Rattle.gateway.specs.Log.{Log};
ghost use Rattle.sim.specs.Lives.{Plan};
ghost use Rattle.std.proofs.Common.{ap};

use crate::sim::Sim;
use traces::Paged;

impl Paged for Sim<'_> {
    ghost poured = { λ s. s.poured };

    ghost Course = { Plan };

    ghost course = { λ s. s.plan };

    fn page(&self) -> &[u8] {
        Sim::page(self)
    }

    fn clear_page(&mut self) {
        Sim::clear_page(self);
    }

    ghost poured_stays = { λ a b same. ap (λ (s : Plan × Log). s.1) same };

    ghost course_stays = { λ a b same. ap (λ (s : Plan × Log). s.0) same };
}

ghost use Rattle.std.specs.Prelude.{◌≡◌, IfOk, IfErr, map};
ghost use Rattle.registry_model.specs.Runs.{Takes, Shows, TakesAll, ShowsAll, RunSays};
ghost use Rattle.registry_model.specs.Keeping.{HeldStays, state_of};
ghost use Rattle.registry_service.specs.Steps.{shown_step, shown_outcome};

use crate::service::Service;
use oci_types::Fault;
use registry_model::{AdminCommand, AdminFault, Keeper, Reply, Request};
use std::alloc::Global;

/// What a registry is asked: a request, or an administrator's command.
#[derive(Clone, Copy)]
pub enum Step<'a> {
    Request(Request<'a>),
    Admin(AdminCommand<'a>),
}

/// What came of a step.
#[derive(Drop)]
pub enum Outcome {
    Reply(Reply),
    Admin(Result<(), AdminFault>),
}

impl<K: Keeper> Service<K> {
    /// One step.
    fn take(&mut self, alloc: Global, step: &Step) -> Outcome
        ensures takes { K.is_honest self.new →
            Takes (state_of (K.kept self.old)) (shown_step step.now) (shown_outcome result)
            (state_of (K.kept self.new)) }
        ensures holds { K.is_honest self.new → HeldStays (K.kept self.old) (K.kept self.new) }
        ensures shows { Shows (state_of (K.kept self.old)) (shown_step step.now) (shown_outcome result)
            (state_of (K.kept self.new)) }
        ensures honest { K.is_honest self.new → K.is_honest self.old }
    {
        match step {
            Step::Request(request) => Outcome::Reply(self.handle(alloc, request)),
            Step::Admin(command) => Outcome::Admin(self.admin(alloc, command)),
        }
    }

    /// Steps one after the other, with an outcome for each.
    ///
    /// The steps are taken one by one, each as `handle` or `admin` takes it, and whatever the keeper
    /// does an outcome says by its kind whether the storage is lost. So up to the first storage
    /// failure the outcomes are those of the definitions, those for which memory was wanting left
    /// out, and after it every outcome is a storage failure. To each team (tokens, and names that
    /// hold every name on which one of them has a level) for which each step is its own or aside, the
    /// replies to its requests are those that it would get alone, in a registry that holds only what
    /// it sees. `Fault::Memory` comes before any step, and nothing has changed; no other fault comes.
    pub fn run(&mut self, alloc: Global, steps: &[Step]) -> Result<Vec<Outcome>, Fault>
        ensures takes { K.is_honest self.new → IfOk result (λ outcomes.
            TakesAll (state_of (K.kept self.old)) (map shown_step steps.now)
            (map shown_outcome outcomes.items) (state_of (K.kept self.new))) }
        ensures shows { IfOk result (λ outcomes.
            ShowsAll (state_of (K.kept self.old)) (map shown_step steps.now)
            (map shown_outcome outcomes.items) (state_of (K.kept self.new))) }
        ensures says { K.is_honest self.new → IfOk result (λ outcomes.
            RunSays (state_of (K.kept self.old)) (map shown_step steps.now)
            (map shown_outcome outcomes.items) (state_of (K.kept self.new))) }
        ensures holds { K.is_honest self.new → HeldStays (K.kept self.old) (K.kept self.new) }
        ensures err { IfErr result (λ fault. (fault ≡ Fault.Memory) × (self.new ≡ self.old)) }
        ensures honest { K.is_honest self.new → K.is_honest self.old }
    {
        let Ok(mut outcomes) = Vec::with_capacity(alloc, steps.len()) else {
            return Err(Fault::Memory);
        };
        for step in steps {
            let outcome = self.take(alloc, step);
            outcomes.push_reserved(outcome);
        }
        Ok(outcomes)
    }
}

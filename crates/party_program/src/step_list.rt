//! Lists of steps.
ghost use Rattle.std.specs.Prelude.{◌≡◌};

use crate::step::Step;
use std::alloc::{AllocError, Global};
use std::marker::Model;

/// The steps of a party in a slot of one pattern, in order. Contracts see the list.
#[derive(Drop)]
pub(crate) struct StepList {
    list: Vec<Step>,
}

impl Model for StepList {
    ghost use Rattle.std.specs.Prelude.{List};
    ghost use Rattle.party_program.specs.declared.step.Step.{Step};

    ghost Value = { List Step };

    ghost view = { λ l. l.list.items };
}

impl StepList {
    ghost use Rattle.std.specs.Prelude.{◌≡◌, [], ◌∷◌, ◌++◌, OnOk};
    ghost use Rattle.list_laws.specs.Lists.{only_if};

    pub(crate) fn new(alloc: Global) -> StepList
        ensures { result ≡ [] }
    {
        StepList {
            list: Vec::new(alloc),
        }
    }

    pub(crate) fn push(&mut self, step: Step) -> Result<(), AllocError>
        ensures { OnOk result (self.new ≡ self.old ++ step ∷ []) }
    {
        self.list.push(step)?;
        Ok(())
    }

    /// Adds a step, where it is wanted.
    pub(crate) fn push_if(&mut self, wanted: bool, step: Step) -> Result<(), AllocError>
        ensures { OnOk result (self.new ≡ self.old ++ only_if wanted (step ∷ [])) }
    {
        if wanted {
            self.list.push(step)?;
        }
        Ok(())
    }

    pub(crate) fn as_slice(&self) -> &[Step]
        ensures { result.now ≡ self.now }
    {
        &self.list
    }
}

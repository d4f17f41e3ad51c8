//! Lists of transfers.
ghost use Rattle.std.specs.Prelude.{◌≡◌};

use crate::pattern::Transfer;
use std::alloc::{AllocError, Global};
use std::marker::Model;

/// The transfers of a pattern, in the order of their messages. Contracts see the list.
#[derive(Drop)]
pub struct Transfers {
    list: Vec<Transfer>,
}

impl Model for Transfers {
    ghost use Rattle.std.specs.Prelude.{List};
    ghost use Rattle.plan_model.specs.declared.pattern.Transfer.{Transfer};

    ghost Value = { List Transfer };

    ghost view = { λ l. l.list.items };
}

impl Transfers {
    ghost use Rattle.std.specs.Prelude.{◌≡◌, [], ◌∷◌, ◌++◌, OnOk};
    ghost use Rattle.list_laws.specs.Lists.{only_if};

    /// No transfers.
    pub fn new(alloc: Global) -> Transfers
        ensures { result ≡ [] }
    {
        Transfers {
            list: Vec::new(alloc),
        }
    }

    /// Adds a transfer, where it is wanted.
    pub fn push_if(&mut self, wanted: bool, transfer: Transfer) -> Result<(), AllocError>
        ensures { OnOk result (self.new ≡ self.old ++ only_if wanted (transfer ∷ [])) }
    {
        if wanted {
            self.list.push(transfer)?;
        }
        Ok(())
    }

    /// The transfers, in order.
    pub fn as_slice(&self) -> &[Transfer]
        ensures { result.now ≡ self.now }
    {
        &self.list
    }
}

//! Faults of files.
ghost use Rattle.std.specs.Prelude.{◌≡◌, IfOk, codes};
ghost use Rattle.circuit_model.specs.ToldFaults.{told_circuit_fault};
ghost use Rattle.expr_circuit.specs.ToldFaults.{told_expr_fault};
ghost use Rattle.number_circuit.specs.ToldFaults.{told_number_fault};
ghost use Rattle.job_file.specs.ToldFaults.{fault_part, told_job_fault};
ghost use Rattle.refusal_text.specs.Lines.{too_long_line};

use crate::fault::Fault;
use crate::line::{file_key, refusal_line};
use circuit_model::CircuitFault;
use expr_circuit::ExprFault;
use fault_table::Entry;
use job_file::JobFault;
use job_limits::FILE_LIMIT;
use number_circuit::NumberFault;
use std::alloc::{AllocError, Global};

/// The line of a file that is longer than the limit.
#[tactic(auto, unfolding(crate::specs::Lines::too_long_line))]
pub fn too_long_line(alloc: Global, file: &str) -> Result<Vec<u8>, AllocError>
    ensures { IfOk result (λ line. line.items ≡ too_long_line file.now) }
{
    let entry = Entry::new(1, "TooLong").with_number("limit", FILE_LIMIT);
    refusal_line(alloc, "files", None, &[file_key(file)], &entry)
}

impl Fault for JobFault {
    ghost part = { fault_part };

    ghost entry = { told_job_fault };

    fn part(&self) -> &'static str {
        JobFault::part(self)
    }

    fn entry(&self) -> Entry<'_> {
        self.told()
    }
}

impl Fault for CircuitFault {
    ghost part = { λ _. codes "circuit" };

    ghost entry = { told_circuit_fault };

    fn part(&self) -> &'static str {
        "circuit"
    }

    fn entry(&self) -> Entry<'_> {
        self.told()
    }
}

impl Fault for ExprFault {
    ghost part = { λ _. codes "expr" };

    ghost entry = { told_expr_fault };

    fn part(&self) -> &'static str {
        "expr"
    }

    fn entry(&self) -> Entry<'_> {
        self.told()
    }
}

impl Fault for NumberFault {
    ghost part = { λ _. codes "numbers" };

    ghost entry = { told_number_fault };

    fn part(&self) -> &'static str {
        "numbers"
    }

    fn entry(&self) -> Entry<'_> {
        self.told()
    }
}

//! Faults of formulas, of groups and of parties.
ghost use Rattle.std.specs.Prelude.{◌≡◌, IfOk, codes, length};
ghost use Rattle.group_formula.specs.ToldFaults.{told_formula_fault};
ghost use Rattle.group_text.specs.ToldFaults.{told_group_fault};
ghost use Rattle.refusal_text.specs.Lines.{covering_line, name_line, told_groups_fault};

use crate::fault::Fault;
use crate::line::refusal_line;
use fault_table::Entry;
use group_formula::FormulaFault;
use group_text::GroupFault;
use maximal_groups::GroupsFault;
use party_names::Names;
use party_set::Group;
use std::alloc::{AllocError, Global};
use text_parts::push_group;

impl Fault for FormulaFault {
    ghost part = { λ _. codes "formula" };

    ghost entry = { told_formula_fault };

    fn part(&self) -> &'static str {
        "formula"
    }

    fn entry(&self) -> Entry<'_> {
        self.told()
    }
}

impl Fault for GroupFault {
    ghost part = { λ _. codes "group" };

    ghost entry = { told_group_fault };

    fn part(&self) -> &'static str {
        "group"
    }

    fn entry(&self) -> Entry<'_> {
        self.told()
    }
}

impl Fault for GroupsFault {
    ghost part = { λ _. codes "groups" };

    ghost entry = { told_groups_fault };

    fn part(&self) -> &'static str {
        "groups"
    }

    fn entry(&self) -> Entry<'_> {
        match self {
            GroupsFault::TooManyGroups { found } => {
                Entry::new(1, "TooManyGroups").with_number("found", *found)
            }
            GroupsFault::Memory => Entry::new(0, "Memory"),
        }
    }
}

/// The line of a name that is no party's.
#[tactic(auto, unfolding(crate::specs::Lines::name_line))]
pub fn name_line(alloc: Global) -> Result<Vec<u8>, AllocError>
    ensures { IfOk result (λ line. line.items ≡ name_line) }
{
    refusal_line(alloc, "name", None, &[], &Entry::new(1, "UnknownParty"))
}

/// The line of two tolerated groups that together are all parties.
#[tactic(auto, unfolding(crate::specs::Lines::covering_line))]
pub fn covering_line(
    alloc: Global,
    names: &Names,
    first: Group,
    second: Group,
) -> Result<Vec<u8>, AllocError>
    requires first { first.parties ≡ length names.now }
    requires second { second.parties ≡ length names.now }
    ensures { IfOk result (λ line. line.items ≡ covering_line names.now first.mask second.mask) }
{
    let mut first_text = Vec::new(alloc);
    push_group(&mut first_text, first, names)?;
    let mut second_text = Vec::new(alloc);
    push_group(&mut second_text, second, names)?;
    let entry = Entry::new(1, "Covering")
        .with_text("first", &first_text)
        .with_text("second", &second_text);
    refusal_line(alloc, "q2", None, &[], &entry)
}

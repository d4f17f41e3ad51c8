//! The summands of the wires that sessions carry of those before them.
ghost use Rattle.std.specs.Prelude.{◌≡◌, ℕ, ◌+◌, ◌<◌, ◌≤◌, IfOk, OnOk, [], if◌then◌else◌, length, nat_eq, slice_index_or};
ghost use Rattle.plan_model.specs.InputWords.{session_words};

use job_plan::Plan;
use std::alloc::{AllocError, Global};
use std::marker::Model;

/// The summands of the wires that later sessions carry of those whose tables were made. Contracts see a row by session
/// and input wire, with no words where there is none.
#[derive(Drop)]
pub struct CarriedRows {
    rows: Vec<Vec<Vec<u64>>>,
}

impl Model for CarriedRows {
    ghost use Rattle.std.specs.Prelude.{List, ℕ};
    ghost use Rattle.plan_model.specs.InputWords.{input_words};

    ghost Value = { List (List (List ℕ)) };

    ghost view = { λ c. input_words c.rows.items };
}

impl CarriedRows {
    ghost use Rattle.std.specs.Prelude.{◌≡◌, ◌+◌, ◌<◌, [], IfOk, OnOk, length, slice_index_or};
    ghost use Rattle.plan_model.specs.Plans.{session};
    ghost use Rattle.share_world.specs.Worlds.{World};
    ghost use Rattle.wire_tables.specs.HandedOn.{IsHandedOn};
    ghost use Rattle.wire_tables.specs.WireTables.{AreCarried, row_at};

    /// Those of a plan of which no table was made.
    pub fn new(alloc: Global, plan: &Plan) -> Result<CarriedRows, AllocError>
        ensures { (w : World) → w.plan ≡ plan.now → IfOk result (AreCarried w 0) }
    {
        let mut rows = Vec::with_capacity(alloc, plan.sessions() as usize)?;
        for _session in 0..plan.sessions() {
            rows.push(Vec::new(alloc))?;
        }
        Ok(CarriedRows { rows })
    }

    /// The summands of the wire that input wire `v` of session `s` carries.
    pub(crate) fn row(&self, s: u32, v: u32) -> &[u64]
        requires session { s < length self.now }
        requires wire { v < length (slice_index_or self.now s []) }
        ensures { result.now ≡ row_at self.now s v }
    {
        &self.rows[s as usize][v as usize]
    }

    /// Hands what later sessions carry of session `s`, which has these rows, on to them.
    pub(crate) fn hand_on(
        &mut self,
        alloc: Global,
        plan: &Plan,
        s: u32,
        rows: &[Vec<u64>],
    ) -> Result<(), AllocError>
        requires session { s < length plan.now.sessions }
        requires sessions { length self.old ≡ length plan.now.sessions }
        requires rows { (session plan.now s).wires ≤ length rows.now }
        ensures sessions { OnOk result (length self.new ≡ length plan.now.sessions) }
        ensures handed_on { OnOk result (IsHandedOn plan.now s (λ v. slice_index_or (session_words rows.now) v [])
            (row_at self.old) (row_at self.new)) }
    {
        plan.recall();
        let part = plan.part(s);
        for kept in part.kept() {
            let wire = part.output_wire(kept.output);
            let row = Vec::from_slice(alloc, &rows[wire as usize])?;
            put_row(alloc, &mut self.rows[kept.session as usize], kept.wire, row)?;
        }
        Ok(())
    }
}

// Puts a row at this place of a list, which may end before it: then rows without words stand between.
fn put_row(
    alloc: Global,
    rows: &mut Vec<Vec<u64>>,
    place: u32,
    row: Vec<u64>,
) -> Result<(), AllocError>
    ensures { OnOk result ((v : ℕ) → slice_index_or (session_words rows.new.items) v []
        ≡ (if nat_eq v place then row.items else slice_index_or (session_words rows.old.items) v [])) }
{
    for _missing in rows.len()..place as usize + 1 {
        rows.push(Vec::new(alloc))?;
    }
    rows[place as usize] = row;
    Ok(())
}

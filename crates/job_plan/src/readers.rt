//! The groups that read the outputs of a session.
ghost use Rattle.std.specs.Prelude.{◌<◌, ◌++◌, OnOk, length};
ghost use Rattle.session_slots.specs.Sessions.{readers};
ghost use Rattle.plan_model.specs.Plans.{session};
ghost use Rattle.mask_list.specs.Masks.{AreMasksOf};

use crate::outline::Outline;
use mask_list::MaskList;
use std::alloc::AllocError;

/// Adds the groups that read outputs of session `s`.
pub(crate) fn add_readers(outline: &Outline, s: u32, masks: &mut MaskList) -> Result<(), AllocError>
    requires { s < length outline.now.sessions }
    ensures { OnOk result (AreMasksOf masks.new (masks.old ++ readers (session outline.now s))) }
{
    let part = outline.part(s);
    for o in 0..part.output_wires() as u32 {
        masks.add(part.wire_readers(o))?;
    }
    Ok(())
}

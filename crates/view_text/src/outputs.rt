//! The output values of a session, and what the line of one begins with.
ghost use Rattle.std.specs.Prelude.{◌≡◌, ◌<◌, length};
ghost use Rattle.party_set.specs.Parties.{has_party};
ghost use Rattle.outer_io.specs.Blocks.{Adds};
ghost use Rattle.plan_model.specs.Plans.{session};
ghost use Rattle.view_text.specs.OutLines.{out_head, output_value};

use job_plan::{OutputValue, Plan};
use outer_io::Gather;
use party_set::{MOST_PARTIES, has_party};
use text_parts::gather_number;

/// Output value v of session s.
pub fn value_of(plan: &Plan, s: u32, v: usize) -> OutputValue
    requires session { s < length plan.now.sessions }
    requires value { v < length (session plan.now s).outputs }
    ensures { result ≡ output_value (session plan.now s) v }
{
    let values = plan.part(s).outputs();
    values[v]
}

/// Whether party r reads output value v of session s.
pub fn is_read(plan: &Plan, s: u32, v: usize, r: u32) -> bool
    requires session { s < length plan.now.sessions }
    requires value { v < length (session plan.now s).outputs }
    requires party { r < MOST_PARTIES }
    ensures { result ≡ has_party (output_value (session plan.now s) v).readers.mask r }
{
    has_party(value_of(plan, s, v).readers.mask(), r)
}

/// Adds the head of the line of output value v of session s for a reader: all but its words.
pub fn gather_out_head<G: Gather>(out: &mut G, s: u32, v: usize, reader: &str)
    ensures { Adds (out_head s v reader.now) (G.gathered out.old) (G.gathered out.new) }
{
    out.push(b"out ");
    gather_number(out, s as u64);
    out.push(b" ");
    gather_number(out, v as u64);
    out.push(b" ");
    out.push(reader.as_bytes());
}

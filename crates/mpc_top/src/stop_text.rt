//! The text of a stop, for `err`.
ghost use Rattle.std.specs.Prelude.{◌≡◌, IsOk};
ghost use Rattle.outer_io.specs.Sink.{Writes};
ghost use Rattle.mpc_top.specs.Outcomes.{text_of};

use job_walk::Stop;
use node_text::write_fault;
use outer_io::{Failed, Sink, write_pieces};

/// Writes the text of a stop; where memory ran out there is none, and the sink is left alone.
#[tactic(auto, unfolding(crate::specs::Texts::usage_text, crate::specs::Texts::out_fault_line, crate::specs::Texts::net_fault_line, crate::specs::Texts::files_fault_line))]
pub(crate) fn write_stop<S: Sink>(sink: &mut S, stop: &Stop) -> Result<(), Failed>
    ensures text { Writes (text_of stop.now) (S.reading sink.old) (S.reading sink.new) result }
    ensures memory { stop.now ≡ Stop.Memory
        → (S.reading sink.new ≡ S.reading sink.old) × IsOk result }
{
    match stop {
        Stop::Memory => Ok(()),
        Stop::Words => sink.write(
            b"refused words\nusage: mpc check DIR\n       mpc run DIR [--workers W] [--view GROUP]\n       mpc pair DIR --group GROUP\n       mpc node DIR NAME\n       mpc sample N\n       mpc audit DIR\n",
        ),
        Stop::Out => sink.write(b"fault out\n"),
        Stop::Net => sink.write(b"fault net\n"),
        Stop::Peer { names, fault } => write_fault(sink, names, fault),
        Stop::Files(name) => write_pieces(sink, &[b"fault files file=", name.as_slice(), b"\n"]),
        Stop::Refused(line) | Stop::Covering(line) => sink.write(line),
    }
}

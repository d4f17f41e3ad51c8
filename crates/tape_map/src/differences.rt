//! Whether a member sees a difference.
ghost use Rattle.std.specs.Prelude.{◌≡◌, ℕ, ◌&&◌, ◌<◌, nat_eq, not, length, slice_index};
ghost use Rattle.party_set.specs.Parties.{has_party};
ghost use Rattle.session_slots.specs.declared.source.Source.TheVariants.{Given};
ghost use Rattle.session_slots.specs.Sessions.{readers};
ghost use Rattle.tape_map.specs.TapeMaps.{member_gives};

use job_plan::SessionPart;
use job_session::Source;
use party_set::{Group, MOST_PARTIES, has_party};

/// Whether it is seen that two words differ.
pub(crate) fn differ(is_seen: bool, first: u64, second: u64) -> bool
    ensures { result ≡ (is_seen && not (nat_eq first second)) }
{
    is_seen && first != second
}

/// Whether a member gives a wire with this source.
pub(crate) fn member_gives(group: Group, source: Source) -> bool
    requires { (p : ℕ) → source ≡ Given p → p < group.parties }
    ensures { result ≡ member_gives group.mask source }
{
    match source {
        Source::Given(party) => group.has(party),
        Source::Earlier { .. } => false,
    }
}

/// Whether a member reads two values that differ.
pub(crate) fn read_differ(is_member: bool, reads: bool, first: u64, second: u64) -> bool
    ensures { result ≡ (is_member && (reads && not (nat_eq first second))) }
{
    is_member && differ(reads, first, second)
}

/// Whether party `r` reads output wire `o`.
pub(crate) fn reads(part: &SessionPart, o: u32, r: u32) -> bool
    requires output { o < length (readers part.now) }
    requires party { r < MOST_PARTIES }
    ensures { result ≡ has_party (slice_index (readers part.now) o) r }
{
    has_party(part.wire_readers(o), r)
}

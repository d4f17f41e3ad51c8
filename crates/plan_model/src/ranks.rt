//! Searches among the messages of a slot, which stand there by rising rank.
ghost use Rattle.std.specs.Prelude.{◌≡◌, ◌≢◌, ℕ, ◌<◌, IfSome, IfNone, map, length, slice_index_or};
ghost use Rattle.plan_model.specs.Numbers.{no_key, rank, IsRising};
ghost use Rattle.plan_model.specs.Patterns.{named};

use crate::key::Key;
use crate::pattern::{Transfer, TransferOrder};
use party_set::{MOST_GROUPS, MOST_PARTIES};

// What rises along the messages of a slot that stand in this order.
fn rank(order: TransferOrder, key: Key) -> u64
    ensures { result ≡ rank order key }
{
    let share = u64::from(key.share);
    match order {
        TransferOrder::BySender => {
            (u64::from(key.sender) * MOST_GROUPS as u64 + share) * MOST_PARTIES as u64
                + u64::from(key.receiver)
        }
        TransferOrder::BySummand => share * MOST_PARTIES as u64 + u64::from(key.receiver),
        TransferOrder::ByReceiver => u64::from(key.receiver) * MOST_GROUPS as u64 + share,
    }
}

/// Where the key stands among these transfers of its slot, which stand in this order; None exactly where it isn't
/// there.
pub fn search(transfers: &[Transfer], order: TransferOrder, key: Key) -> Option<usize>
    requires { IsRising (rank order) (map (named key.session key.slot) transfers.now) }
    ensures within { IfSome result (λ i. i < length transfers.now) }
    ensures found { IfSome result (λ i.
        slice_index_or (map (named key.session key.slot) transfers.now) i no_key ≡ key) }
    ensures absent { IfNone result ((i : ℕ) → i < length transfers.now
        → slice_index_or (map (named key.session key.slot) transfers.now) i no_key ≢ key) }
{
    let wanted = rank(order, key);
    match transfers.binary_search_by_key(
        &wanted,
        |transfer| rank(order, transfer.named(key.session, key.slot)),
    ) {
        Ok(at) if transfers[at].named(key.session, key.slot) == key => Some(at),
        _ => None,
    }
}

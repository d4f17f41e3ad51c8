//! What is read of one peer, word by word into an inbox.
ghost use Rattle.std.specs.Prelude.{◌≡◌, ℕ, List, length};
ghost use Rattle.inbox_board.specs.Rule.{newcomer};
ghost use Rattle.inbox_board.specs.Folds.{pushed};
ghost use Rattle.link_reader.specs.Heard.{StaysSteady};
ghost use Rattle.link_reader.specs.Wakers.{gives};
ghost use Rattle.link_reader.specs.ReadWords.{ReadsWords};

use crate::heard::{hear, meet};
use crate::incoming_talk::IncomingTalk;
use crate::waker::Waker;
use inbox_board::{Inbox, InboxSeat};
use node_talk::NodeFault;
use outer_io::Inlet;

// Reads the hello and then frame after frame, and pushes each word, up to the first fault. The party is given a
// token after each push.
pub fn read_all<I: Inlet>(
    inlet: &mut I,
    talk: &IncomingTalk,
    inbox: &Inbox,
    seat: &mut InboxSeat,
    waker: &mut Waker,
) -> Result<(), NodeFault>
    requires seat { seat.old.id ≡ inbox.now.id }
    requires new { seat.old.view ≡ newcomer 1 }
    requires places { length talk.now.keys ≡ inbox.now.places }
    ensures seat { seat.new.id ≡ inbox.now.id }
    ensures read { (words : List ℕ) × (seat.new.view ≡ pushed (newcomer 1) words)
        × ReadsWords talk.now words (I.reading inlet.old) (I.reading inlet.new) result
        × (waker.new ≡ gives waker.old (length words)) }
    ensures steady { StaysSteady (I.reading inlet.old) (I.reading inlet.new) }
{
    match meet(inlet, talk) {
        Ok(()) => (),
        Err(fault) => return Err(fault),
    }
    for place in 0..talk.keys.len() {
        match hear(inlet, talk, place) {
            Ok(word) => inbox.push(seat, word),
            Err(fault) => return Err(fault),
        }
        waker.wake();
    }
    Ok(())
}

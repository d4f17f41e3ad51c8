//! A node before its run.
ghost use Rattle.std.specs.Prelude.{◌≡◌, ◌-◌, ◌+◌, ◌<◌, IfOk};
ghost use Rattle.party_file.specs.Forms.{FitsPlan};
ghost use Rattle.node_run.specs.Remains.{party_at};
ghost use Rattle.node_run.specs.Ready.{given_words, AreOpened, IsPeerReady, ArePeersReady};

use crate::mailbox::Mailbox;
use crate::readers::ReaderParts;
use frame_code::FrameForm;
use inbox_board::Inbox;
use job_plan::Plan;
use link_reader::{IncomingTalk, PartyParker, message_places};
use message_board::PlainCells;
use party_desk::Desk;
use std::alloc::{AllocError, Global};
use std::marker::Model;
use std::snapshot::Snapshot;
use std::sync::Arc;
use tape_words::Tape;

/// A node with all memory that its run needs. Contracts see what its party runs with.
#[derive(Drop)]
pub struct NodeReady {
    pub(crate) plan: Snapshot<Plan>,
    pub(crate) me: u32,
    pub(crate) digest: [u8; 32],
    pub(crate) form: FrameForm,
    pub(crate) desks: Vec<Desk>,
    pub(crate) words: PlainCells,
    pub(crate) boxes: Vec<Mailbox>,
    pub(crate) places: Vec<u32>,
    pub(crate) readers: Vec<ReaderParts>,
    pub(crate) parker: PartyParker,
}

impl Model for NodeReady {
    ghost use Rattle.node_run.specs.Ready.{NodePart, IsNodeReady, given_to};

    ghost Value = { NodePart };

    ghost view = { λ r. record {
      plan = r.plan.value;
      me = r.me;
      given = given_to r.desks.items;
      digest = r.digest;
      form = r.form;
    } };

    ghost invariant = { λ r. IsNodeReady (view r) (record {
      desks = r.desks.items;
      words = r.words;
      boxes = r.boxes.items;
      places = r.places.items;
      readers = r.readers.items;
      parker = r.parker;
    }) };
}

impl NodeReady {
    ghost use Rattle.std.specs.Prelude.{◌≡◌, ◌<◌, IfOk};
    ghost use Rattle.party_file.specs.Forms.{FitsPlan};
    ghost use Rattle.node_run.specs.Ready.{given_words};

    /// Takes all memory that the run of party `me` needs, in a job of this plan, digest and form of frames, with these
    /// inputs and these pieces of its tape, by session.
    pub fn make(
        alloc: Global,
        plan: &Plan,
        me: u32,
        inputs: &[Vec<u64>],
        tapes: Vec<Tape>,
        digest: &[u8; 32],
        form: FrameForm,
    ) -> Result<NodeReady, AllocError>
        requires party { me < plan.now.parties }
        requires fits { FitsPlan plan.now me (given_words inputs.now tapes.items) }
        ensures { IfOk result (λ ready. ready ≡ record {
          plan = plan.now;
          me = me;
          given = given_words inputs.now tapes.items;
          digest = digest.now;
          form = form;
        }) }
    {
        let desks = open_desks(alloc, plan, me, inputs, tapes)?;
        let words = PlainCells::make(alloc, plan.messages(), plan.ring())?;
        let places = message_places(alloc, plan, me)?;
        let parker = PartyParker::new(alloc)?;
        let (boxes, readers) = ready_peers(alloc, plan, me, digest, form, &parker)?;
        Ok(NodeReady {
            plan: Snapshot::of(plan),
            me,
            digest: *digest,
            form,
            desks,
            words,
            boxes,
            places,
            readers,
            parker,
        })
    }
}

// A new desk for each session, with its inputs and its piece of tape.
fn open_desks(
    alloc: Global,
    plan: &Plan,
    me: u32,
    inputs: &[Vec<u64>],
    tapes: Vec<Tape>,
) -> Result<Vec<Desk>, AllocError>
    requires party { me < plan.now.parties }
    requires fits { FitsPlan plan.now me (given_words inputs.now tapes.items) }
    ensures { IfOk result (λ desks. AreOpened plan.now me (given_words inputs.now tapes.items) desks.items) }
{
    let mut desks = Vec::with_capacity(alloc, plan.sessions() as usize)?;
    for tape in tapes {
        let session = desks.len();
        let words = inputs[session].as_slice();
        match Desk::open(alloc, plan, me, session as u32, words, tape) {
            Ok(desk) => desks.push(desk)?,
            Err((e, _)) => return Err(e),
        }
    }
    Ok(desks)
}

// The party that stands at this place among the peers of another.
fn peer_at(me: u32, place: u32) -> u32
    requires { place + 1 < 4294967296 }
    ensures { result ≡ party_at me place }
{
    if place < me { place } else { place + 1 }
}

// An inbox for this peer, and the reader that is to fill it.
fn ready_peer(
    alloc: Global,
    plan: &Plan,
    me: u32,
    digest: &[u8; 32],
    form: FrameForm,
    parker: &PartyParker,
    peer: u32,
) -> Result<(Mailbox, ReaderParts), AllocError>
    requires parties { (me < plan.now.parties) × (peer < plan.now.parties) }
    ensures { IfOk result (λ made. IsPeerReady plan.now me parker.now digest.now form peer made.0 made.1) }
{
    let talk = IncomingTalk::of_plan(alloc, plan, me, peer, *digest, form)?;
    let (inbox, writer, reader) = Inbox::make(alloc, talk.messages())?;
    let inbox = Arc::new(alloc, inbox)?;
    let theirs = Arc::try_clone(&inbox)?;
    let waker = parker.waker()?;
    Ok((
        Mailbox::new(inbox, reader),
        ReaderParts::new(talk, theirs, writer, waker),
    ))
}

// An inbox and a reader for each peer.
fn ready_peers(
    alloc: Global,
    plan: &Plan,
    me: u32,
    digest: &[u8; 32],
    form: FrameForm,
    parker: &PartyParker,
) -> Result<(Vec<Mailbox>, Vec<ReaderParts>), AllocError>
    requires { me < plan.now.parties }
    ensures { IfOk result (λ made. ArePeersReady plan.now me parker.now digest.now form (plan.now.parties - 1)
        made.0.items made.1.items) }
{
    let mut boxes = Vec::new(alloc);
    let mut readers = Vec::new(alloc);
    for place in 0..plan.parties() - 1 {
        let peer = peer_at(me, place);
        let (mailbox, reader) = ready_peer(alloc, plan, me, digest, form, parker, peer)?;
        boxes.push(mailbox)?;
        readers.push(reader)?;
    }
    Ok((boxes, readers))
}

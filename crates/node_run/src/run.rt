// The run of a node.
ghost use Rattle.std.specs.Prelude.{◌≡◌, ◌-◌};
ghost use Rattle.outer_io.specs.Links.{HasPeers, links_reading};
ghost use Rattle.node_talk.specs.Talks.{Node};
ghost use Rattle.node_run.specs.Ready.{IsNodeOf};
ghost use Rattle.node_run.specs.NodeRuns.{Runs};

use crate::cells::NodeCells;
use crate::done::NodeDone;
use crate::hellos::greet;
use crate::last_slot::LastSlot;
use crate::parking::Parking;
use crate::readers::{Remains, close_inlets, read_peers};
use crate::ready::NodeReady;
use job_plan::Plan;
use link_reader::LinkReader;
use node_talk::NodeFault;
use outer_io::{Inlet, Links, Outlet, Spawner};
use std::sync::Wait;

impl<O: Outlet> Remains<O> {
    ghost use Rattle.std.specs.Prelude.{◌≡◌, map};
    ghost use Rattle.party_desk.specs.declared.desk.Desk.{Desk};
    ghost use Rattle.node_run.specs.Remains.{answer, fault_told};

    // The fault that ended the run: a send that failed, a start that was refused, or the first fault of a reader.
    fn fault_told(&self) -> Option<NodeFault>
        ensures { result ≡ fault_told self.now.failed self.now.refused self.now.fault }
    {
        if let Some(peer) = self.failed {
            return Some(NodeFault::Link { peer });
        }
        if let Some(peer) = self.refused {
            return Some(NodeFault::NoThread { peer });
        }
        self.fault
    }

    // The answer of the run, and the links with these inlets.
    fn into_answer<I>(self, inlets: Vec<I>) -> (Result<NodeDone, NodeFault>, Links<I, O>)
        ensures answer { result.0 ≡ answer (fault_told self.failed self.refused self.fault) (record {
          words = self.words.cells;
          outputs = map (λ (desk : Desk). desk.memory.outputs.items) self.desks.items;
        }) }
        ensures links { result.1 ≡ record { inlets = inlets; outlets = self.outlets } }
    {
        let told = self.fault_told();
        let Remains {
            outlets,
            words,
            desks,
            ..
        } = self;
        let done = NodeDone::new(words, desks);
        let answer = match told {
            Some(fault) => Err(fault),
            None => Ok(done),
        };
        (answer, Links { inlets, outlets })
    }
}

impl NodeReady {
    ghost use Rattle.std.specs.Prelude.{◌≡◌, ◌-◌};
    ghost use Rattle.outer_io.specs.Links.{HasPeers, links_reading};
    ghost use Rattle.node_talk.specs.Talks.{Node};
    ghost use Rattle.node_run.specs.Ready.{IsNodeOf};
    ghost use Rattle.node_run.specs.NodeRuns.{Runs};

    /// Runs the party: it greets its peers, reads them all at once, each in a job of the spawner, and does its sessions
    /// in order. It hands the links back, closed, whatever the answer.
    pub fn run<I: Inlet + Drop, O: Outlet, W: Spawner<LinkReader<I>>, R: Wait>(
        self,
        rt: &R,
        plan: &Plan,
        links: Links<I, O>,
        spawner: &mut W,
    ) -> (Result<NodeDone, NodeFault>, Links<I, O>)
        requires plan { plan.now ≡ self.plan }
        requires peers { HasPeers (self.plan.parties - 1) (links_reading I.reading O.reading links) }
        ensures { (n : Node) → IsNodeOf self n → Runs n (links_reading I.reading O.reading links)
            (links_reading I.reading O.reading result.1) (W.reading spawner.old) (W.reading spawner.new) result.0 }
    {
        let NodeReady {
            me,
            digest,
            form,
            desks,
            words,
            boxes,
            places,
            readers,
            parker,
            ..
        } = self;
        let Links {
            mut inlets,
            outlets,
        } = links;
        let mut cells = NodeCells {
            plan,
            me,
            form,
            outlets,
            words,
            boxes,
            places,
            slot: LastSlot::new(),
            failed: None,
        };
        if !greet(&mut cells, &digest) {
            close_inlets(inlets.as_mut_slice());
            return Remains::of(cells, desks, 0, None).into_answer(inlets);
        }
        let parking = Parking::new(parker);
        let remains = read_peers(
            rt,
            plan,
            spawner,
            &mut inlets,
            readers,
            cells,
            desks,
            &parking,
        );
        remains.into_answer(inlets)
    }
}

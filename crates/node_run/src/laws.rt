//! The world that a node's part is of.
ghost use Rattle.share_world.specs.Laws.{IsWhole};
ghost use Rattle.node_talk.specs.Talks.{Node};
ghost use Rattle.node_run.specs.Ready.{NodePart, IsNodePart, IsNodeOf};

/// Each node's part that fits its plan is that of some node of a whole world.
pub fn every_node_part_is_of_a_world()
    ensures { (part : NodePart) → IsNodePart part → (n : Node) × IsNodeOf part n × IsWhole n.world }
{}

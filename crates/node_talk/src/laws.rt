//! Laws of what a node says and hears.
ghost use Rattle.std.specs.Prelude.{◌≡◌, ℕ, ◌<◌, ◌≤◌, length};
ghost use Rattle.plan_model.specs.Messages.{messages};
ghost use Rattle.plan_model.specs.Numbers.{message};
ghost use Rattle.plan_model.specs.declared.key.Key.{Key};
ghost use Rattle.share_world.specs.Worlds.{view};
ghost use Rattle.share_world.specs.Laws.{IsWhole};
ghost use Rattle.outer_io.specs.Count.{Rose};
ghost use Rattle.outer_io.specs.Links.{LinksReading};
ghost use Rattle.node_talk.specs.declared.fault.NodeFault.{NodeFault};
ghost use Rattle.node_talk.specs.Talks.{Node, TalkIsSaid, expected, expected_at, place_of, RunsAgree, OneIsLongest};
ghost use Rattle.node_talk.specs.Causes.{Cause};
ghost use Rattle.node_talk.specs.Runs.{Results, IsDone, kept_view, TalkedThrough, StopsAtOnePlace, HearsAll, NoneRose, HearsWorld, GotWorld, IsOfWorld};
ghost use Rattle.party_set.specs.Parties.{party_mask};

/// All instructions of a party together say its talk: its posts to another party are the messages to it, in the order
/// of their numbers.
pub fn a_talk_is_said()
    ensures { (n : Node) → TalkIsSaid n }
{}

/// Each message to a party stands at its place among those that are expected of its sender.
pub fn messages_stand_at_their_places()
    ensures within { (n : Node) (m : ℕ) → m < length (messages n.world.plan) → (message n.world.plan m).receiver ≡ n.me
        → place_of n m < length (expected n (message n.world.plan m).sender) }
    ensures at { (n : Node) (m : ℕ) → m < length (messages n.world.plan) → (message n.world.plan m).receiver ≡ n.me
        → expected_at n (message n.world.plan m).sender (place_of n m) ≡ message n.world.plan m }
{}

/// The bytes of an inlet hold one longest run: runs in the same bytes have the same words, as far as both go, and two
/// that can't be longer are as long.
pub fn an_inlet_holds_one_longest_run()
    ensures words { (n : Node) (q : ℕ) → n.world.plan.bits ≤ 64 → length n.digest ≡ 32 → RunsAgree n q }
    ensures longest { (n : Node) (q : ℕ) → OneIsLongest n q }
{}

/// There is one place in its instructions where a run stops, by what came.
pub fn a_run_stops_at_one_place()
    ensures { (n : Node) → StopsAtOnePlace n }
{}

/// A node whose inlets hold what its peers say in the world hears all that it expects.
pub fn what_peers_say_is_all_that_is_expected()
    ensures { (n : Node) (links : LinksReading) → IsWhole n.world → HearsWorld n links → HearsAll n links }
{}

/// Where a node hears all that it expects and no link and no start failed, there is no cause of a fault.
pub fn no_cause_where_all_is_heard()
    ensures { (n : Node) (before after : LinksReading) (refused refused' : ℕ) (fault : NodeFault)
        → length n.digest ≡ 32 → HearsAll n before → NoneRose n before after → (Rose refused refused' → ⊥)
        → Cause n before after refused refused' fault → ⊥ }
{}

/// A node that is done, and whose inlets began with what its peers say in one world, said what it says in that world,
/// and its outputs are the plain circuit's.
pub fn nodes_among_a_world_are_of_it()
    ensures { (n : Node) (got : Key → ℕ) (r : Results) (before after : LinksReading) → IsWhole n.world
        → n.me < n.world.plan.parties → IsDone n got r → TalkedThrough n got before after → HearsWorld n before
        → IsOfWorld n r before after }
{}

/// A node that is done, and got the words of the world, kept its own view in the world.
pub fn a_node_keeps_its_own_view()
    ensures { (n : Node) (got : Key → ℕ) (r : Results) → IsWhole n.world → n.me < n.world.plan.parties
        → IsDone n got r → GotWorld n got → kept_view n.world.plan n.me r ≡ view n.world (party_mask n.me) }
{}

//! Laws of whole networks: each party of a world runs its node, over pipes from and to the others.
#![tactic(auto)]

ghost use Rattle.std.specs.Prelude.{ℕ, ◌<◌};
ghost use Rattle.network_laws.specs.Networks.{Network, IsNetwork, RanThrough, AllRanThrough, SaysWorld, IsRight};
ghost use Rattle.network_laws.specs.Views.{IsSeen, SeesNoMore};

/// Whatever runs broke off, and whatever pipes lost at their end: what each party said begins what it says in the
/// world, and each party that ran to its end got the world's words, said all that it says there, kept its own view in
/// it, and has the plain circuit's outputs.
pub fn a_network_is_of_one_world()
    ensures said { (net : Network) → IsNetwork net → SaysWorld net }
    ensures right { (net : Network) → IsNetwork net
        → (p : ℕ) → p < net.world.plan.parties → RanThrough net p → IsRight net p }
{}

/// Whatever runs broke off, and whatever pipes lost at their end: each wire of a group's members took and held a first
/// part of what their view puts there, so that they see no more than it.
pub fn a_group_sees_no_more()
    ensures { (net : Network) → IsNetwork net → (group : ℕ) → SeesNoMore net group }
{}

/// Where all parties ran to their end, what the members of a group say and hear is their view in the world, in frames.
pub fn a_group_sees_its_view()
    ensures { (net : Network) → IsNetwork net → AllRanThrough net → (group : ℕ) → IsSeen net group }
{}

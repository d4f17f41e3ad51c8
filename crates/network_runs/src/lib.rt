//! Laws of the runs of all parties of a world: they make a network, and what goes over a group's wires is what a
//! simulator shows. No code that runs.
#![tactic(auto)]

ghost use Rattle.std.specs.Prelude.{ℕ};
ghost use Rattle.network_laws.specs.Networks.{Network, IsNetwork, AllRanThrough};
ghost use Rattle.network_runs.specs.Played.{RunsMakeANetwork, WorldsArePlayed};
ghost use Rattle.network_runs.specs.Wires.{CarriesTheView, WiresAreSimulated};

/// Where the run of each party of a world says what the run of a node says, over pipes that invent nothing, they make a
/// network, in which each party that answered Ok is right. Every whole world has such runs.
pub fn runs_make_a_network()
    ensures network { RunsMakeANetwork }
    ensures worked { WorldsArePlayed }
{}

/// Where all parties ran to their end, a group's wires carry what its view puts there.
pub fn wires_carry_the_view()
    ensures { (net : Network) → IsNetwork net → AllRanThrough net → (group : ℕ) → CarriesTheView net group }
{}

/// Over all tapes that the parties outside a tolerated group may draw, what its wires carry passes each test as often
/// as what a simulator makes of the plan, the members' inputs, the outputs that they read and their tapes.
pub fn wires_are_simulated()
    ensures { WiresAreSimulated }
{}

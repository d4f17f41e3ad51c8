//! The gates of a session, with the source or the readers of each wire that has them.
ghost use Rattle.std.specs.Prelude.{◌≡◌, ℕ, ◌++◌, [], OnOk, IfOk, count_by, if◌then◌else◌, map, nat_eq, replicate};
ghost use Rattle.session_slots.specs.SoundSessions.{AreWithin};
ghost use Rattle.list_laws.specs.Lists.{listed};
ghost use Rattle.session_slots.specs.Sessions.{giver, owners_of, readers_of, source_from};
ghost use Rattle.session_slots.specs.Counts.{products_of};
ghost use Rattle.session_slots.specs.Wirings.{some_carried};

use crate::slot_kind::SlotKind;
use crate::slot_list::{list_kinds, push_kept};
use crate::source::Source;
use crate::touched::{Touched, touched_by};
use crate::values::{InputValue, KeptWire, OutputValue, Owner};
use circuit_model::Gate;
use std::alloc::{AllocError, Global};

/// Gates over `wires` wires, the values that they are given and those that they make, who gives and reads each wire of
/// these, where each input wire comes from if some are carried, whether products are prepared: then what each slot is
/// of, too, whether all masks come ahead, and which output wires are kept.
#[derive(Drop)]
pub struct Wiring {
    pub gates: Vec<Gate>,
    pub wires: u32,
    pub inputs: Vec<InputValue>,
    pub outputs: Vec<OutputValue>,
    pub owners: Vec<u32>,
    pub sources: Vec<Source>,
    pub readers: Vec<u32>,
    pub products: usize,
    pub prepared: bool,
    pub ahead: bool,
    pub kinds: Vec<SlotKind>,
    pub kept: Vec<KeptWire>,
}

impl Wiring {
    ghost use Rattle.std.specs.Prelude.{◌≡◌, ◌+◌, ◌<◌, true, false, [], IfOk, length};
    ghost use Rattle.session_slots.specs.Sessions.{kept_wire, output_wire, session_slots, source};
    ghost use Rattle.session_slots.specs.SlotNumbers.{first_input, first_of_gate};
    ghost use Rattle.session_slots.specs.SoundSessions.{AreKept, AreWithin, IsWired};
    ghost use Rattle.session_slots.specs.Counts.{owned};
    ghost use Rattle.session_slots.specs.Wirings.{IsWiring, IsTouched, prepared_in, session_in};

    /// The wiring of these gates over `wires` wires, with these values.
    pub fn of(
        alloc: Global,
        gates: Vec<Gate>,
        wires: u32,
        inputs: Vec<InputValue>,
        outputs: Vec<OutputValue>,
    ) -> Result<Wiring, AllocError>
        requires { IsWired (record {
          gates = gates.items;
          wires = wires;
          inputs = inputs.items;
          outputs = outputs.items;
          prepared = false;
          ahead = false;
          kept = [];
        }) }
        ensures made { IfOk result (λ wiring. session_in wiring ≡ record {
          gates = gates.items;
          wires = wires;
          inputs = inputs.items;
          outputs = outputs.items;
          prepared = false;
          ahead = false;
          kept = [];
        }) }
        ensures tables { IfOk result IsWiring }
        ensures within { IfOk result (λ _. AreWithin outputs.items) }
    {
        let owners = owners_by_wire(alloc, &inputs)?;
        let sources = sources_by_wire(alloc, &inputs)?;
        let readers = readers_by_wire(alloc, &outputs)?;
        let products = count_products(&gates);
        Ok(Wiring {
            gates,
            wires,
            inputs,
            outputs,
            owners,
            sources,
            readers,
            products,
            prepared: false,
            ahead: false,
            kinds: Vec::new(alloc),
            kept: Vec::new(alloc),
        })
    }

    /// The same with prepared products, their masks ahead or in turn with the products of masks.
    pub fn prepare(self, alloc: Global, ahead: bool) -> Result<Wiring, AllocError>
        requires { IsWiring self }
        ensures made { IfOk result (λ wiring. session_in wiring ≡ prepared_in self ahead) }
        ensures tables { IfOk result IsWiring }
    {
        let kinds = list_kinds(alloc, &self, ahead)?;
        let mut wiring = self;
        wiring.kinds = kinds;
        wiring.prepared = true;
        wiring.ahead = ahead;
        Ok(wiring)
    }

    /// The same that keeps these wires, in the place of those that it kept.
    pub fn keep(self, kept: Vec<KeptWire>) -> Result<Wiring, AllocError>
        requires wiring { IsWiring self }
        requires kept { AreKept (session_in self) kept.items }
        ensures made { IfOk result (λ wiring. session_in wiring ≡ record (session_in self) { kept = kept.items }) }
        ensures tables { IfOk result IsWiring }
    {
        let mut wiring = self;
        if wiring.prepared {
            let others = wiring.kinds.len() - wiring.kept.len();
            wiring.kinds.truncate(others);
            push_kept(kept.len() as u32, &mut wiring.kinds)?;
        }
        wiring.kept = kept;
        Ok(wiring)
    }

    /// Whether no product is prepared, and no wire is kept.
    pub fn is_bare(&self) -> bool
        ensures direct { result ≡ true → self.now.prepared ≡ false }
        ensures none { result ≡ true → self.now.kept.items ≡ [] }
    {
        !self.prepared && self.kept.is_empty()
    }

    /// Where input wire `v` comes from.
    pub fn source(&self, v: u32) -> Source
        requires wiring { IsWiring self.now }
        requires within { v < length self.now.owners.items }
        ensures { result ≡ source (session_in self.now) v }
    {
        if self.sources.is_empty() {
            return Source::Given(self.owners[v as usize]);
        }
        self.sources[v as usize]
    }

    /// How many input wires party `p` gives.
    pub fn owned(&self, p: u32) -> usize
        requires { IsWiring self.now }
        ensures { result ≡ owned (session_in self.now) p }
    {
        if self.sources.is_empty() {
            return count_item(&self.owners, p);
        }
        self.sources
            .iter()
            .filter(|source| source.is_given_by(p))
            .count()
    }

    /// How many slots there are.
    pub fn slots(&self) -> u32
        requires { IsWiring self.now }
        ensures { result ≡ session_slots (session_in self.now) }
    {
        if self.prepared {
            return self.kinds.len() as u32;
        }
        (self.owners.len() + self.gates.len() + self.readers.len() + self.kept.len()) as u32
    }

    /// The number of the first input slot.
    pub fn first_input(&self) -> u32
        requires { IsWiring self.now }
        ensures { result ≡ first_input (session_in self.now) }
    {
        if self.prepared {
            3 * self.products as u32
        } else {
            0
        }
    }

    /// The number of the first slot of the gates.
    pub fn first_gate(&self) -> u32
        requires { IsWiring self.now }
        ensures { result ≡ first_of_gate (session_in self.now) 0 }
    {
        self.first_input() + self.owners.len() as u32
    }

    /// The number of the first output slot.
    pub fn first_output(&self) -> u32
        requires { IsWiring self.now }
        ensures { result ≡ first_of_gate (session_in self.now) (length self.now.gates.items) }
    {
        self.slots() - self.readers.len() as u32 - self.kept.len() as u32
    }

    /// The wire of output wire `o`, counted from the first output wire.
    pub fn output_wire(&self, o: u32) -> u32
        requires wiring { IsWiring self.now }
        requires within { o < length self.now.readers.items }
        ensures { result ≡ output_wire (session_in self.now) o }
    {
        self.wires - self.readers.len() as u32 + o
    }

    /// The wire that is kept at place `j`.
    pub fn kept_wire(&self, j: u32) -> u32
        requires wiring { IsWiring self.now }
        requires within { j < length self.now.kept.items }
        ensures { result ≡ kept_wire (session_in self.now) j }
    {
        self.output_wire(self.kept[j as usize].output)
    }

    /// The wires of input wire `v` of a direct session, which stands in the slot of its number.
    pub fn input_touched(&self, v: u32) -> Touched
        requires wiring { IsWiring self.now }
        requires direct { self.now.prepared ≡ false }
        requires within { v < length self.now.owners.items }
        ensures { IsTouched (session_in self.now) v result }
    {
        Touched {
            sets: Some(v),
            first: None,
            second: None,
            third: None,
        }
    }

    /// The wires of gate `t` of a direct session, which stands in the slot of its number behind the input wires.
    #[inline(always)]
    pub fn gate_touched(&self, t: u32) -> Touched
        requires wiring { IsWiring self.now }
        requires direct { self.now.prepared ≡ false }
        requires within { t < length self.now.gates.items }
        ensures { IsTouched (session_in self.now) (length self.now.owners.items + t) result }
    {
        touched_by(self.gates[t as usize])
    }

    /// The wire of output wire `o` of a direct session, which stands behind those of the gates.
    pub fn output_touched(&self, o: u32) -> Touched
        requires wiring { IsWiring self.now }
        requires direct { self.now.prepared ≡ false }
        requires within { o < length self.now.readers.items }
        ensures { IsTouched (session_in self.now)
            (length self.now.owners.items + length self.now.gates.items + o) result }
    {
        Touched {
            sets: None,
            first: Some(self.output_wire(o)),
            second: None,
            third: None,
        }
    }
}

// The party that gives each input wire.
fn owners_by_wire(alloc: Global, inputs: &[InputValue]) -> Result<Vec<u32>, AllocError>
    ensures { IfOk result (λ list. list.items ≡ map giver (owners_of inputs.now)) }
{
    let mut list = Vec::new(alloc);
    for value in inputs {
        push_copies(value.width, value.owner.giver(), &mut list)?;
    }
    Ok(list)
}

// Where each input wire comes from, if some are carried.
fn sources_by_wire(alloc: Global, inputs: &[InputValue]) -> Result<Vec<Source>, AllocError>
    ensures { IfOk result (λ list. list.items ≡ (if some_carried inputs.now then owners_of inputs.now else [])) }
{
    if some_carried(inputs) {
        list_sources(alloc, inputs)
    } else {
        Ok(Vec::new(alloc))
    }
}

fn some_carried(inputs: &[InputValue]) -> bool
    ensures { result ≡ some_carried inputs.now }
{
    inputs.iter().any(|value| value.owner.is_carried())
}

// Where each input wire comes from.
fn list_sources(alloc: Global, inputs: &[InputValue]) -> Result<Vec<Source>, AllocError>
    ensures { IfOk result (λ list. list.items ≡ owners_of inputs.now) }
{
    let mut list = Vec::new(alloc);
    for value in inputs {
        push_sources(value.width, value.owner, &mut list)?;
    }
    Ok(list)
}

// Where each of the `width` wires of a value comes from.
fn push_sources(width: u32, owner: Owner, list: &mut Vec<Source>) -> Result<(), AllocError>
    ensures { OnOk result (list.new.items ≡ list.old.items ++ listed width (source_from owner)) }
{
    for wire in 0..width {
        list.push(owner.source(wire))?;
    }
    Ok(())
}

// The readers of each output wire, as a mask.
fn readers_by_wire(alloc: Global, outputs: &[OutputValue]) -> Result<Vec<u32>, AllocError>
    ensures masks { IfOk result (λ list. list.items ≡ readers_of outputs.now) }
    ensures within { IfOk result (λ list. AreWithin outputs.now) }
{
    let mut list = Vec::new(alloc);
    for value in outputs {
        push_copies(value.width, value.readers.mask(), &mut list)?;
    }
    Ok(list)
}

fn push_copies(count: u32, item: u32, list: &mut Vec<u32>) -> Result<(), AllocError>
    ensures { OnOk result (list.new.items ≡ list.old.items ++ replicate count item) }
{
    list.resize(list.len() + count as usize, item)
}

// How often the item stands in a list.
fn count_item(list: &[u32], item: u32) -> usize
    ensures { result ≡ count_by (λ (x : ℕ). nat_eq x item) list.now }
{
    list.iter().filter(|x| **x == item).count()
}

fn count_products(gates: &[Gate]) -> usize
    ensures { result ≡ products_of gates.now }
{
    gates
        .iter()
        .filter(|gate| gate.operation.is_product())
        .count()
}

//! The messages that a party expects of its peers, by its plan.
ghost use Rattle.std.specs.Prelude.{◌≡◌, ◌<◌, ◌+◌, ◌++◌, filter, length, IfOk, OnOk};
ghost use Rattle.plan_model.specs.Firsts.{first};
ghost use Rattle.plan_model.specs.Messages.{slot_messages};
ghost use Rattle.plan_model.specs.Plans.{slot, slots};
ghost use Rattle.plan_model.specs.Sound.{IsSound};
ghost use Rattle.node_talk.specs.Talks.{Node, goes, messages_between};
ghost use Rattle.link_reader.specs.Expected.{HasPlaces, ArePlaced};

use crate::incoming_talk::IncomingTalk;
use frame_code::FrameForm;
use job_plan::{Key, Plan};
use std::alloc::{AllocError, Global};

impl IncomingTalk {
    /// What party `me` of a plan expects of `peer`, in a job of this digest and form of frames.
    pub fn of_plan(
        alloc: Global,
        plan: &Plan,
        me: u32,
        peer: u32,
        digest: [u8; 32],
        form: FrameForm,
    ) -> Result<IncomingTalk, AllocError>
        requires parties { (me < plan.now.parties) × (peer < plan.now.parties) }
        ensures { IfOk result (λ talk. talk
            ≡ record {
              peer = peer;
              me = me;
              digest = digest;
              bits = plan.now.bits;
              keys = messages_between plan.now peer me;
              form = form;
            }) }
    {
        let keys = keys_between(alloc, plan, peer, me)?;
        Ok(IncomingTalk::new(peer, me, digest, plan.ring(), keys, form))
    }
}

// All messages from one party to another, in order.
fn keys_between(alloc: Global, plan: &Plan, from: u32, to: u32) -> Result<Vec<Key>, AllocError>
    ensures { IfOk result (λ keys. keys.items ≡ messages_between plan.now from to) }
{
    let mut keys = Vec::new(alloc);
    for s in 0..plan.sessions() {
        for k in 0..plan.slots(s) {
            push_between(plan, s, k, from, to, &mut keys)?;
        }
    }
    Ok(keys)
}

// Adds those of slot k of session s. They are its transfers, so that no message is searched for by its number.
fn push_between(
    plan: &Plan,
    s: u32,
    k: u32,
    from: u32,
    to: u32,
    keys: &mut Vec<Key>,
) -> Result<(), AllocError>
    requires session { s < length plan.now.sessions }
    requires slot { k < slots plan.now s }
    ensures { OnOk result (keys.new.items
        ≡ keys.old.items ++ filter (goes from to) (slot_messages plan.now s k (slot plan.now s k))) }
{
    let transfers = plan.transfers(plan.pattern(s, k));
    for i in 0..transfers.len() {
        let key = transfers[i].named(s, k);
        if goes(key, from, to) {
            keys.push(key)?;
        }
    }
    Ok(())
}

// Whether the message goes from the one party to the other.
fn goes(key: Key, from: u32, to: u32) -> bool
    ensures { result ≡ goes from to key }
{
    key.sender == from && key.receiver == to
}

/// Where each message of a plan stands among those that its sender sends to party `me`.
pub fn message_places(alloc: Global, plan: &Plan, me: u32) -> Result<Vec<u32>, AllocError>
    ensures { IfOk result (λ places. (n : Node) → n.world.plan ≡ plan.now → n.me ≡ me → HasPlaces n places.items) }
{
    let mut places = Vec::with_capacity(alloc, plan.messages() as usize)?;
    let mut counts = vec![in alloc; 0u32; plan.parties() as usize]?;
    for s in 0..plan.sessions() {
        for k in 0..plan.slots(s) {
            push_places(plan, me, s, k, &mut places, counts.as_mut_slice())?;
        }
    }
    Ok(places)
}

// Adds the places of the messages of slot k of session s, and counts these.
fn push_places(
    plan: &Plan,
    me: u32,
    s: u32,
    k: u32,
    places: &mut Vec<u32>,
    counts: &mut [u32],
) -> Result<(), AllocError>
    requires sound { IsSound plan.now }
    requires session { s < length plan.now.sessions }
    requires slot { k < slots plan.now s }
    requires placed { ArePlaced plan.now me (first plan.now s k) places.old.items counts.old }
    ensures { OnOk result (ArePlaced plan.now me (first plan.now s (k + 1)) places.new.items counts.new) }
{
    let transfers = plan.transfers(plan.pattern(s, k));
    for i in 0..transfers.len() {
        let key = transfers[i].named(s, k);
        let sender = key.sender as usize;
        places.push(counts[sender])?;
        if key.receiver == me {
            counts[sender] += 1;
        }
    }
    Ok(())
}

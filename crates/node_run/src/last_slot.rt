//! Messages by their numbers, where most stand in the slot of the one before.
ghost use Rattle.std.specs.Prelude.{◌≡◌, ◌<◌, length};

use job_plan::{Key, Plan};

/// The slot of the message that was looked for last. A party posts and takes slot by slot, so that the next message
/// mostly stands there too, and isn't searched for among all.
#[derive(Drop)]
pub struct LastSlot {
    session: u32,
    slot: u32,
}

impl LastSlot {
    ghost use Rattle.std.specs.Prelude.{◌≡◌, ◌<◌, length, true};
    ghost use Rattle.plan_model.specs.Messages.{messages};
    ghost use Rattle.plan_model.specs.Numbers.{message};
    ghost use Rattle.node_run.specs.Mail.{StandsIn};

    /// The first slot of all, before any message was looked for.
    pub fn new() -> LastSlot {
        LastSlot {
            session: 0,
            slot: 0,
        }
    }

    /// The message of this number.
    pub fn message(&mut self, plan: &Plan, number: u32) -> Key
        requires { number < length (messages plan.now) }
        ensures is { result ≡ message plan.now number }
    {
        if self.has(plan, number) {
            let place = number - plan.first(self.session, self.slot);
            let transfers = plan.transfers(plan.pattern(self.session, self.slot));
            return transfers[place as usize].named(self.session, self.slot);
        }
        let key = plan.message(number);
        self.session = key.session;
        self.slot = key.slot;
        key
    }

    // Whether this message stands in that slot.
    fn has(&self, plan: &Plan, number: u32) -> bool
        ensures { result ≡ true → StandsIn plan.now self.now.session self.now.slot number }
    {
        self.session < plan.sessions()
            && self.slot < plan.slots(self.session)
            && plan.first(self.session, self.slot) <= number
            && number < plan.first(self.session, self.slot + 1)
    }
}

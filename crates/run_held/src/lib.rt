// The record that each step of a run updates: a step by value, and one thin step that is lent the record.
#![tactic(auto)]

ghost use Rattle.std.specs.Prelude.{◌≡◌};
ghost use Rattle.run_held.specs.Record.{stepped_of, Takes};

// The state of a run beside the lent stack list: how many updates are held, the sum of their entries, and the greatest room in use so far.
#[derive(Clone, Copy, Drop)]
pub struct Held {
    pub count: u64,
    pub entries: u64,
    pub greatest: u64,
}

// The record after a step: `pops` updates of `popped` entries come off, the step's own update goes on unless it has no entries,
// and `room` was in use.
fn stepped(held: Held, pops: u64, popped: u64, update: u64, room: u64) -> Held
    requires { Takes held pops popped update }
    ensures { result ≡ stepped_of held pops popped update room }
{
    Held {
        count: held.count - pops + update.min(1),
        entries: held.entries - popped + update,
        greatest: held.greatest.max(room),
    }
}

// Updates the lent record by one step.
pub fn step(held: &mut Held, pops: u64, popped: u64, update: u64, room: u64)
    requires { Takes held.old pops popped update }
    ensures { held.new ≡ stepped_of held.old pops popped update room }
{
    *held = stepped(*held, pops, popped, update, room);
}

// The same by value: lends a local record to the step.
pub fn advance(held: Held, pops: u64, popped: u64, update: u64, room: u64) -> Held
    requires { Takes held pops popped update }
    ensures { result ≡ stepped_of held pops popped update room }
{
    let mut next = held;
    step(&mut next, pops, popped, update, room);
    next
}

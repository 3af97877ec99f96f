// Many slots, one command ring: which slots have a call waiting, and whose turn it is. The calls themselves stay with the caller.
#![tactic(auto)]

ghost use Rattle.std.specs.Prelude.{◌≡◌};
ghost use Rattle.dispatcher.specs.Dispatcher.{SLOTS, new_dispatcher, submitted, waiting, first_waiting, turned};

// Every byte is a slot here,
pub const SLOTS: usize = 256;

// and so many of them may be taken.
pub const TAKEN_ROOM: u16 = 32;

// The numbers of a submission that is refused.
pub const ALREADY_WAITING: u32 = 27;

pub const TOO_MANY_SLOTS: u32 = 28;

// What is known of a slot: never taken, taken, taken with a call waiting.
const NEVER: u8 = 0;

const IDLE: u8 = 1;

const WAITING: u8 = 2;

#[repr(C)]
#[derive(Clone, Copy)]
pub struct Dispatcher {
    pub marks: [u8; SLOTS],
    // how many slots were ever taken
    pub taken: u16,
    // where the next turn begins to look: after the slot served last, at 0 if none was
    pub from: u16,
}

// 0, or 27 or 28 and the dispatcher as it was.
#[repr(C)]
#[derive(Clone, Copy)]
pub struct Submitted {
    pub dispatcher: Dispatcher,
    pub answer: u32,
}

// Whether a slot's call is to be run, and which slot's.
#[repr(C)]
#[derive(Clone, Copy)]
pub struct Turned {
    pub dispatcher: Dispatcher,
    pub served: bool,
    pub slot: u8,
}

#[tactic(auto, unfolding(crate::specs::Dispatcher::new_dispatcher))]
pub fn new_dispatcher() -> Dispatcher
    ensures { result ≡ new_dispatcher }
{
    Dispatcher {
        marks: [NEVER; SLOTS],
        taken: 0,
        from: 0,
    }
}

// A call of a slot is to wait for its turn.
pub fn submit(mut d: Dispatcher, slot: u8) -> Submitted
    ensures { result ≡ submitted d slot }
{
    let place = slot as usize;
    let mark = d.marks[place];
    if mark == WAITING {
        return Submitted {
            dispatcher: d,
            answer: ALREADY_WAITING,
        };
    }
    if mark == NEVER {
        if TAKEN_ROOM <= d.taken {
            return Submitted {
                dispatcher: d,
                answer: TOO_MANY_SLOTS,
            };
        }
        d.taken += 1;
    }
    d.marks[place] = WAITING;
    Submitted {
        dispatcher: d,
        answer: 0,
    }
}

// The first waiting slot from one on, back to the lowest after the highest; SLOTS if none waits.
fn first_waiting(marks: &[u8; SLOTS], from: u16) -> usize
    ensures { result ≡ first_waiting (waiting marks.now) SLOTS from }
{
    for k in 0..SLOTS {
        let slot = (from as usize + k) % SLOTS;
        if marks[slot] == WAITING {
            return slot;
        }
    }
    SLOTS
}

// The slot whose turn it is has its call waiting no longer: it is to be run.
pub fn turn(mut d: Dispatcher) -> Turned
    ensures { result ≡ turned d }
{
    let place = first_waiting(&d.marks, d.from);
    if SLOTS <= place {
        return Turned {
            dispatcher: d,
            served: false,
            slot: 0,
        };
    }
    d.marks[place] = IDLE;
    d.from = place as u16 + 1;
    Turned {
        dispatcher: d,
        served: true,
        slot: place as u8,
    }
}

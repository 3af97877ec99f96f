// Commands to the controller and the device: each is a word in the log, and its outcome is a byte (cmd.rs and device.rs of the original).
#![tactic(auto)]

ghost use Rattle.std.specs.Prelude.{◌≡◌, ◌<◌, length, set};
ghost use Rattle.command.specs.Command.{command_word, outcome_at};
ghost use Rattle.command.specs.Sweep.{or_code};

use def::Dci;

// How many words the log of a call has at least. Where a course begins a clause says it of the log, and no type does: the caller lends
// a slice that may be longer, and in a struct it would be no plainer (at `send`).
pub const LOG_ROOM: usize = 64;

#[derive(Clone, Copy)]
pub enum Command {
    Address,
    Evaluate,
    Configure,
    Stop(Dci),
    Resume(Dci),
    SetInterface(u8, u8),
    SetConfiguration(u8),
    ReadHeader,
    ReadConfiguration,
    ReadDevice,
    ReadConfig(u8),
    Disable,
}

// How a command ended. No Result: the three are of one rank, and but for a bring-up's reading each course goes on in its own way
// after each of them.
#[derive(Clone, Copy, PartialEq, Eq)]
pub enum Sent {
    Done,
    Failed(u8),
    Cut,
}

// How a sweep over endpoints ended, how many words the log has, and how many endpoints, from the first on, it made active again.
#[derive(Clone, Copy)]
pub struct Swept {
    pub sent: Sent,
    pub count: usize,
    pub active: usize,
}

// The operation of each command, the highest four bits of its log word: numbers, since the log is what C reads.
const ADDRESS: u32 = 0x1000_0000;

const EVALUATE: u32 = 0x2000_0000;

const CONFIGURE: u32 = 0x3000_0000;

const STOP: u32 = 0x4000_0000;

const RESUME: u32 = 0x5000_0000;

const SET_INTERFACE: u32 = 0x6000_0000;

const SET_CONFIGURATION: u32 = 0x7000_0000;

const READ_HEADER: u32 = 0x8000_0000;

const READ_CONFIGURATION: u32 = 0x9000_0000;

const READ_DEVICE: u32 = 0xA000_0000;

const READ_CONFIG: u32 = 0xB000_0000;

const DISABLE: u32 = 0xC000_0000;

// The lowest bit of each operand.
const FIRST: u32 = 0x10_0000;

const SECOND: u32 = 0x1000;

impl From<Command> for u32 {
    ghost from_gives = { λ c word. word ≡ command_word c };

    #[tactic(auto, unfolding(crate::specs::Command::command_word))]
    fn from(c: Command) -> u32 {
        match c {
            Command::Address => ADDRESS,
            Command::Evaluate => EVALUATE,
            Command::Configure => CONFIGURE,
            Command::Stop(dci) => STOP + (dci.0 as u32) * FIRST,
            Command::Resume(dci) => RESUME + (dci.0 as u32) * FIRST,
            Command::SetInterface(interface, alternate) => SET_INTERFACE
                + (interface as u32) * FIRST
                + (alternate as u32) * SECOND,
            Command::SetConfiguration(value) => SET_CONFIGURATION + (value as u32) * FIRST,
            Command::ReadHeader => READ_HEADER,
            Command::ReadConfiguration => READ_CONFIGURATION,
            Command::ReadDevice => READ_DEVICE,
            Command::ReadConfig(index) => READ_CONFIG + (index as u32) * FIRST,
            Command::Disable => DISABLE,
        }
    }
}

// Logs command number n of a call, and reads its outcome.
// The log, the outcomes and n go through the courses as three parameters: in a struct, with the log behind a `&mut`, each
// contract would also have to say that it is the same log and that the outcomes are the same.
#[tactic(auto, unfolding(crate::specs::Command::outcome_at))]
pub fn send(log: &mut [u32], outcomes: &[u8], n: usize, c: Command) -> Sent
    requires { n < length log.old }
    ensures { (result ≡ outcome_at outcomes.now n) × (log.new ≡ set log.old n (command_word c)) }
{
    log[n] = u32::from(c);
    match outcomes.get(n) {
        None => Sent::Cut,
        Some(&0) => Sent::Done,
        Some(&code) => Sent::Failed(code),
    }
}

// A failed resume's code counts before the stop's.
#[tactic(auto, unfolding(crate::specs::Sweep::or_code))]
pub fn or_code(code: u8, s: Sent) -> Sent
    ensures { result ≡ or_code code s }
{
    match s {
        Sent::Done => Sent::Failed(code),
        _ => s,
    }
}

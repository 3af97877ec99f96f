// A word of the log, read: what a driver sends.
#![tactic(auto)]

ghost use Rattle.std.specs.Prelude.{◌≡◌, ◌<◌};
ghost use Rattle.command_reader.specs.Read.{lowest_bit, command_of};

// An operation and its operands; those that it has not are 0. All 0 is no command: C reads the three bytes as they are.
#[repr(C)]
#[derive(Clone, Copy)]
pub struct Logged {
    pub operation: u8,
    pub first: u8,
    pub second: u8,
}

const NONE: Logged = Logged {
    operation: 0,
    first: 0,
    second: 0,
};

const OPERATIONS: u32 = 12;

// The lowest bit that a word of an operation may have: of its last operand, or of the operation. Operations are the numbers that C
// reads; an enum would be made of one and turned back at once.
#[tactic(auto, unfolding(crate::specs::Read::has_one, crate::specs::Read::has_two, crate::specs::Read::lowest_bit))]
fn lowest_bit(operation: u32) -> u32
    ensures lowest { result ≡ lowest_bit operation }
    ensures some { 0 < result }
{
    match operation {
        4 | 5 | 7 | 11 => 0x10_0000,
        6 => 0x1000,
        _ => 0x1000_0000,
    }
}

pub fn command_of(word: u32) -> Logged
    ensures { result ≡ command_of word }
{
    let operation = word / 0x1000_0000;
    if OPERATIONS < operation || word % lowest_bit(operation) != 0 {
        return NONE;
    }
    Logged {
        operation: operation as u8,
        first: (word / 0x10_0000 % 256) as u8,
        second: (word / 0x1000 % 256) as u8,
    }
}

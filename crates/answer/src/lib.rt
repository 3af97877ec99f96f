// What a call answers: document 01, "Who can cause an answer", and from 19 on the numbers of document 02.
#![tactic(auto)]

ghost use Rattle.std.specs.Prelude.{◌≡◌};
ghost use Rattle.answer.specs.Answer.{number, code_of};
ghost use Rattle.answer.specs.Answered.{answered_of};

// No Result: 01 numbers the acceptance among the answers, as 0, and its theorems and this repository's speak of it as of one of them.
#[derive(Clone, Copy, PartialEq, Eq)]
pub enum Answer {
    Accepted,
    ContextLength,
    RoutesLength,
    LogTooShort,
    DescriptorList,
    HubChain,
    Speed,
    ThinkTime,
    NotFound,
    InvalidParameter,
    Rings,
    SlotLimitReached,
    Unusable,
    Failed(u8),
    InterfaceBroken,
    Cut,
    ShortHeader,
    QueueFull,
    InvalidEndpoint,
    PacketExponent,
    TooFewRings,
    OutdatedAsk,
    NotClaimed,
    Companion,
}

// The documents' number of an answer. Not a `From`: an answer has two numbers, this one and its code.
#[tactic(auto, unfolding(crate::specs::Answer::number))]
pub fn answer_number(a: Answer) -> u8
    ensures { result ≡ number a }
{
    match a {
        Answer::Accepted => 0,
        Answer::ContextLength => 1,
        Answer::RoutesLength => 2,
        Answer::LogTooShort => 3,
        Answer::DescriptorList => 4,
        Answer::HubChain => 5,
        Answer::Speed => 6,
        Answer::ThinkTime => 7,
        Answer::NotFound => 8,
        Answer::InvalidParameter => 9,
        Answer::Rings => 10,
        Answer::SlotLimitReached => 11,
        Answer::Unusable => 12,
        Answer::Failed(_) => 13,
        Answer::InterfaceBroken => 14,
        Answer::Cut => 15,
        Answer::ShortHeader => 16,
        Answer::QueueFull => 17,
        Answer::InvalidEndpoint => 18,
        Answer::PacketExponent => 19,
        Answer::TooFewRings => 21,
        Answer::OutdatedAsk => 22,
        Answer::NotClaimed => 25,
        Answer::Companion => 26,
    }
}

// The code of a failed command, 0 of every other answer.
#[tactic(auto, unfolding(crate::specs::Answer::code_of))]
pub fn answer_code(a: Answer) -> u8
    ensures { result ≡ code_of a }
{
    match a {
        Answer::Failed(code) => code,
        _ => 0,
    }
}

// What a call returns to C: the answer's number, the code of 13, and how many words were logged.
#[repr(C)]
#[derive(Clone, Copy)]
pub struct Answered {
    pub answer: u32,
    pub code: u32,
    pub count: usize,
}

#[tactic(auto, unfolding(crate::specs::Answered::answered_of))]
pub fn answered_of(a: Answer, count: usize) -> Answered
    ensures { result ≡ answered_of a count }
{
    Answered {
        answer: u32::from(answer_number(a)),
        code: u32::from(answer_code(a)),
        count,
    }
}

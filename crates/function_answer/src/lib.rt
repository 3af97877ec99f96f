// What the functions outside a slot answer: 01, "Who can cause an answer", and from 20 on the numbers of document 02.
#![tactic(auto)]

ghost use Rattle.std.specs.Prelude.{◌≡◌, Err};
ghost use Rattle.function_answer.specs.Answer.{number};

// Why such a function refuses; accepted, one that writes says how many words or bytes it wrote.
#[derive(Clone, Copy, PartialEq, Eq)]
pub enum Refusal {
    ContextLength,
    TooShort,
    DescriptorList,
    // a Dci outside 1 to 31
    NoEndpoint,
    Speed,
    Malformed,
    Settings,
    OtherConfiguration,
    Companion,
}

impl Refusal {
    // The documents' number.
    #[tactic(auto, unfolding(crate::specs::Answer::number))]
    pub fn number(self) -> u32
        ensures { result ≡ number (Err self) }
    {
        match self {
            Refusal::ContextLength => 1,
            Refusal::TooShort => 3,
            Refusal::DescriptorList | Refusal::NoEndpoint => 4,
            Refusal::Speed => 6,
            Refusal::Malformed => 20,
            Refusal::Settings => 23,
            Refusal::OtherConfiguration => 24,
            Refusal::Companion => 26,
        }
    }
}

// A reason as a line of words.
use reason::Reason;
use std::io;

pub fn reason(rt: &impl Print, reason: Reason, outcomes: &[u8]) -> io::Result<()> {
    match reason {
        Reason::Nothing => rt.println("accepted"),
        Reason::Alternate {
            interface,
            alternate,
        } => println!(rt; "interface {interface} has no alternate {alternate}"),
        Reason::Endpoint { word, owner } => {
            println!(rt; "endpoint word {word:08x}: interface {owner} owns its address")
        }
        Reason::Rings => rt.println("fewer free rings than endpoint words"),
        Reason::Command { place, word } => {
            let code = outcomes.get(place).copied().unwrap_or(0);
            println!(rt; "command {place}, {word:08x}, failed with {code}")
        }
        Reason::Number(number) => println!(rt; "answer {number}"),
    }
}

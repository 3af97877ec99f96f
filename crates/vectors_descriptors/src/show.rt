// What was read and written, on standard output.
ghost use Rattle.std.specs.Prelude.{◌≤◌, IfOk, length};

use std::io;
use xhci_functions::Answered;

fn answer(rt: &impl Print, a: Answered) -> io::Result<()> {
    println!(rt; "{} {}", a.answer, a.count)
}

// The answer of the reader and its words. Says how many there are.
pub fn words(rt: &impl Print, a: Answered, words: &[u32]) -> io::Result<usize>
    ensures { IfOk result (λ n. n ≤ length words.now) }
{
    rt.print("read ")?;
    answer(rt, a)?;
    let n = a.count.min(words.len());
    for w in &words[..n] {
        println!(rt; "{w:08x}")?;
    }
    Ok(n)
}

// The answer of the writer and its bytes. Says how many there are.
pub fn bytes(rt: &impl Print, a: Answered, bytes: &[u8]) -> io::Result<usize>
    ensures { IfOk result (λ n. n ≤ length bytes.now) }
{
    rt.print("written ")?;
    answer(rt, a)?;
    let n = a.count.min(bytes.len());
    for b in &bytes[..n] {
        print!(rt; "{b:02x}")?;
    }
    rt.print("\n")?;
    Ok(n)
}

// The answer of the second reading, and whether its words are those of the first.
pub fn again(rt: &impl Print, a: Answered, first: &[u32], second: &[u32]) -> io::Result<()> {
    rt.print("again ")?;
    answer(rt, a)?;
    let text = if first == second {
        "the same words"
    } else {
        "other words"
    };
    rt.println(text)
}

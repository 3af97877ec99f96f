// What a call left, on standard output.
use std::io;
use xhci_device::Answered;

fn answer(rt: &impl Print, a: Answered) -> io::Result<()> {
    println!(rt; "answer {} {} {}", a.answer, a.code, a.count)
}

fn log(rt: &impl Print, words: &[u32]) -> io::Result<()> {
    rt.print("log")?;
    for w in words {
        print!(rt; " {w:08x}")?;
    }
    rt.print("\n")
}

fn bytes(rt: &impl Print, label: &str, bytes: &[u8]) -> io::Result<()> {
    rt.print(label)?;
    for b in bytes {
        print!(rt; "{b:02x}")?;
    }
    rt.print("\n")
}

// The words that are not 0.
fn words(rt: &impl Print, label: &str, words: &[u64]) -> io::Result<()> {
    rt.print(label)?;
    for (i, w) in words.iter().enumerate() {
        if *w != 0 {
            print!(rt; " {i}={w:x}")?;
        }
    }
    rt.print("\n")
}

// A call's answer, and what it left in each memory that was lent to it.
pub fn left(
    rt: &impl Print,
    a: Answered,
    sent: &[u32],
    ctx: &[u8],
    routes: &[u64],
    image: &[u64],
) -> io::Result<()> {
    answer(rt, a)?;
    log(rt, sent)?;
    bytes(rt, "ctx ", ctx)?;
    words(rt, "routes", routes)?;
    words(rt, "record", image)?;
    rt.print(".\n")
}

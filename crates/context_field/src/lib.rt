// Fields of a 32-byte block of little-endian doublewords (what the setters of the crate xhci do for the original).
#![tactic(auto)]

mod named;

ghost use Rattle.std.specs.Prelude.{◌≡◌, ◌+◌, ◌*◌, ◌<◌, ◌≤◌, ◌^◌, length};
ghost use Rattle.context_field.specs.Field.{word_at, read_field, write_field, InBlock};

// Any three numbers: `input_field` of crates/context_view takes any field, and answers `NoField` to one that lies in no block, so a type
// that says `InBlock` would ask more of its callers. What reads or writes a field asks for it.
#[derive(Clone, Copy)]
pub struct Field {
    pub word: usize,
    pub low: usize,
    pub width: usize,
}

// The doubleword at an index.
#[tactic(auto, unfolding(crate::specs::Field::word_at))]
fn word_at(block: &[u8], word: usize) -> u64
    requires { 4 * word + 4 ≤ length block.now }
    ensures { (result ≡ word_at block.now word) × (result < 2 ^ 32) }
{
    let at = 4 * word;
    let bytes = [block[at], block[at + 1], block[at + 2], block[at + 3]];
    u64::from(u32::from_le_bytes(bytes))
}

// 2 to the k.
fn power(k: usize) -> u64
    requires { k ≤ 32 }
    ensures { (result ≡ 2 ^ k) × (0 < result) × (result ≤ 2 ^ 32) }
{
    1 << k
}

// What a field holds.
#[tactic(auto, unfolding(crate::specs::Field::read_field))]
pub fn read_field(block: &[u8], f: Field) -> u64
    requires { (32 ≤ length block.now) × InBlock f }
    ensures { result ≡ read_field block.now f }
{
    word_at(block, f.word) / power(f.low) % power(f.width)
}

// Makes a field the low bits of a value, as many as it has.
pub fn put_field(block: &mut [u8], f: Field, value: u64)
    requires { (32 ≤ length block.old) × InBlock f }
    ensures { block.new ≡ write_field block.old f value }
{
    let d = word_at(block, f.word);
    let end = power(f.low + f.width);
    let scale = power(f.low);
    let span = power(f.width);
    let x = d / end * end + value % span * scale + d % scale;
    let at = 4 * f.word;
    block[at..at + 4].copy_from_slice(&(x as u32).to_le_bytes());
}

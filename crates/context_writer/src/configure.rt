// The context of a Configure: endpoints dropped, endpoints added, and the entries.
ghost use Rattle.std.specs.Prelude.{◌≡◌, List, [], ◌∷◌, ◌++◌, ℕ, ◌≤◌, max, length};
ghost use Rattle.context_block.specs.Fields.{INTERFACE-NUMBER, ALTERNATE-SETTING, CONTEXT-ENTRIES};
ghost use Rattle.context_block.specs.FieldWrite.{◌:=◌};
ghost use Rattle.context_block.specs.Blocks.{changed, drop_flags};
ghost use Rattle.transfer.specs.Routes.{queues, ring_for};
ghost use Rattle.context.specs.Place.{in_block, CONTROL, SLOT, written, Spaced};
ghost use Rattle.context.specs.Steps.{add_all, highest_dci, word_dcis, staying, configure_writes};
ghost use Rattle.context.specs.Promises.{EndpointDcis, Flagged};

use context_block_writer::{control, endpoint};
use context_field::Field;
use def::Dci;

// The flags cleared, and the interface and alternate setting of the command.
#[tactic(auto, using(context_block_writer::proofs::Laws::control_written), unfolding(context_block::specs::FieldWrite::fields_written, context_block::specs::FieldWrite::inside, context_block::specs::FieldWrite::all_inside, context_block::specs::Blocks::changed))]
pub fn begin_configure(ctx: &mut [u8], interface: u8, alternate: u8)
    requires { 32 ≤ length ctx.old }
    ensures { (spacing : ℕ) →
        ctx.new ≡ written spacing
        (in_block CONTROL (changed ++ ((INTERFACE-NUMBER := interface) ∷ (ALTERNATE-SETTING := alternate) ∷ []))) ctx.old }
{
    control::perper_change(ctx);
    context_field::put_field(ctx, Field::INTERFACE_NUMBER, interface as u64);
    context_field::put_field(ctx, Field::ALTERNATE_SETTING, alternate as u64);
}

// The drop flags of some endpoint words.
pub fn drop_endpoints(ctx: &mut [u8], words: &[u64])
    requires { 32 ≤ length ctx.old }
    ensures { (spacing : ℕ) → ctx.new ≡ written spacing (in_block CONTROL (drop_flags words.now)) ctx.old }
{
    for w in words {
        let dci = context_block::word_dci(*w);
        context_field::put_field(ctx, Field::drop_flag(dci.0), 1);
    }
}

// The ring of an endpoint, where each ring stands beside its Dci; the last one of a Dci counts, and none is 0.
fn ring_of(dcis: &[u8], rings: &[u64], dci: Dci) -> u64
    ensures { result ≡ ring_for dci.0 (queues dcis.now rings.now) 0 }
{
    let mut ring = 0;
    for (i, d) in dcis.iter().enumerate() {
        if *d == dci.0 {
            ring = rings.get(i).copied().unwrap_or(0);
        }
    }
    ring
}

// The flags and blocks of added endpoint words, in their order, with the rings that the queues have for them. Dcis and rings are two
// slices, as the record's queues are two arrays (document 01), and may differ in length.
pub fn add_endpoints(
    ctx: &mut [u8],
    spacing: usize,
    speed: u8,
    words: &[u64],
    dcis: &[u8],
    rings: &[u64],
)
    requires { Spaced spacing (length ctx.old) }
    ensures { ctx.new ≡ written spacing (add_all speed (queues dcis.now rings.now) words.now) ctx.old }
{
    for w in words {
        let e = descriptor::endpoint_descriptor(*w);
        let dci = descriptor::endpoint_address_dci(e.address);
        let ring = ring_of(dcis, rings, dci);
        context_field::put_field(ctx, Field::add_flag(dci.0), 1);
        let start = spacing * (dci.0 as usize + 1);
        endpoint::put_endpoint(&mut ctx[start..start + 32], e, speed, ring);
    }
}

// The highest Dci of the record's endpoints whose drop flags are not set, 1 if there is none.
pub fn highest_staying(ctx: &[u8], dcis: &[u8]) -> u8
    requires { (32 ≤ length ctx.now) × EndpointDcis dcis.now }
    ensures { (1 ≤ result) × ((dropped : List ℕ) → Flagged dropped ctx.now → result ≡ highest_dci (staying dropped dcis.now)) }
{
    let mut highest = 1;
    for dci in dcis {
        let flag = context_field::read_field(ctx, Field::drop_flag(*dci));
        if flag == 0 {
            highest = highest.max(*dci);
        }
    }
    highest
}

// The highest Dci of added words, or one that is higher.
pub fn highest_added(least: u8, words: &[u64]) -> u8
    requires { 1 ≤ least }
    ensures { result ≡ max least (highest_dci (word_dcis words.now)) }
{
    let mut highest = least;
    for w in words {
        highest = highest.max(context_block::word_dci(*w).0);
    }
    highest
}

pub fn finish_configure(ctx: &mut [u8], spacing: usize, entries: u8)
    requires { Spaced spacing (length ctx.old) }
    ensures { ctx.new ≡ written spacing (in_block SLOT ((CONTEXT-ENTRIES := entries) ∷ [])) ctx.old }
{
    context_field::put_field(
        &mut ctx[spacing..spacing + 32],
        Field::CONTEXT_ENTRIES,
        entries as u64,
    );
}

// What Configure is given: the dropped words' flags, the added words' flags and blocks, and the entries. A struct of these parameters
// would be made by `prepare_configure` of crates/course_steps for this call alone, and taken apart here.
pub fn prepare_configure_context(
    ctx: &mut [u8],
    spacing: usize,
    speed: u8,
    interface: u8,
    alternate: u8,
    dropped: &[u64],
    added: &[u64],
    queue_dcis: &[u8],
    queue_rings: &[u64],
    dcis: &[u8],
)
    requires spaced { Spaced spacing (length ctx.old) }
    requires endpoint_dcis { EndpointDcis dcis.now }
    ensures { ctx.new ≡ written spacing
        (configure_writes speed interface alternate dropped.now added.now
        (queues queue_dcis.now queue_rings.now) dcis.now)
        ctx.old }
{
    begin_configure(ctx, interface, alternate);
    drop_endpoints(ctx, dropped);
    let staying = highest_staying(ctx, dcis);
    add_endpoints(ctx, spacing, speed, added, queue_dcis, queue_rings);
    let entries = highest_added(staying, added);
    finish_configure(ctx, spacing, entries);
}

// A view over the lent bytes of an input context (InputHandler of the original's context.rs), and what its fields hold.
// `input_field` reads a field without a view.
#![tactic(auto)]

ghost use Rattle.std.specs.Prelude.{◌≡◌, ◌+◌, ◌*◌, ◌≤◌, length};
ghost use Rattle.context.specs.Place.{CONTROL, SLOT, read_at};
ghost use Rattle.context_block.specs.Fields.{DROP-FLAGS, ADD-FLAGS, ROUTE-STRING, CONTEXT-ENTRIES, EP-TYPE, MAX-PACKET-SIZE};
ghost use Rattle.context_field.specs.Field.{InBlock};
ghost use Rattle.context_view.specs.View.{is_context, is_field, field_in, endpoint_field_in};

use context_field::Field;
use def::Dci;

// Why nothing is read.
#[derive(Clone, Copy, PartialEq, Eq)]
pub enum NoReading {
    // The bytes are no context of this spacing.
    NoContext,
    // No block of a context has this field.
    NoField,
}

#[derive(Clone, Copy)]
pub struct InputHandler<'a> {
    pub ctx: &'a [u8],
    pub spacing: usize,
}

const CONTROL: usize = 0;

const SLOT: usize = 1;

#[tactic(auto, unfolding(crate::specs::View::is_context))]
fn is_context(len: usize, spacing: usize) -> bool
    ensures { result ≡ is_context spacing len }
{
    match spacing {
        32 => len == 1056,
        64 => len == 2112,
        _ => false,
    }
}

#[tactic(auto, unfolding(crate::specs::View::is_field))]
fn is_field(block: usize, f: Field) -> bool
    ensures { result ≡ is_field block f }
{
    block < 33 && f.word < 8 && f.low <= 32 && f.width <= 32 - f.low
}

impl<'a> InputHandler<'a> {
    #[tactic(auto, unfolding(context::specs::Place::read_at, context::specs::Place::block_at))]
    fn field_at(self, block: usize, f: Field) -> u64
        requires { (self.spacing * block + 32 ≤ length self.ctx.now) × InBlock f }
        ensures { result ≡ read_at self.entry.spacing self.entry.ctx.now block f }
    {
        let start = self.spacing * block;
        let end = start + 32;
        context_field::read_field(&self.ctx[start..end], f)
    }

    // A field of a block: 0 is control, 1 the slot, Dci + 1 an endpoint.
    #[tactic(auto, unfolding(crate::specs::View::field_in))]
    pub fn field(self, block: usize, f: Field) -> Result<u64, NoReading>
        ensures { result ≡ field_in self.entry.ctx.now self.entry.spacing block f }
    {
        if !is_context(self.ctx.len(), self.spacing) {
            return Err(NoReading::NoContext);
        }
        if !is_field(block, f) {
            return Err(NoReading::NoField);
        }
        Ok(self.field_at(block, f))
    }

    // A field of an endpoint's block. A Dci of 0 names no endpoint.
    #[tactic(auto, unfolding(crate::specs::View::endpoint_field_in))]
    fn endpoint_field(self, dci: Dci, f: Field) -> Result<u64, NoReading>
        ensures { result ≡ endpoint_field_in self.entry.ctx.now self.entry.spacing dci.0 f }
    {
        if dci.0 == 0 {
            return Err(NoReading::NoField);
        }
        self.field(dci.0 as usize + 1, f)
    }

    pub fn drop_flags(self) -> Result<u64, NoReading>
        ensures { result ≡ field_in self.entry.ctx.now self.entry.spacing CONTROL DROP-FLAGS }
    {
        self.field(CONTROL, Field::DROP_FLAGS)
    }

    pub fn add_flags(self) -> Result<u64, NoReading>
        ensures { result ≡ field_in self.entry.ctx.now self.entry.spacing CONTROL ADD-FLAGS }
    {
        self.field(CONTROL, Field::ADD_FLAGS)
    }

    pub fn route_string(self) -> Result<u64, NoReading>
        ensures { result ≡ field_in self.entry.ctx.now self.entry.spacing SLOT ROUTE-STRING }
    {
        self.field(SLOT, Field::ROUTE_STRING)
    }

    pub fn context_entries(self) -> Result<u64, NoReading>
        ensures { result ≡ field_in self.entry.ctx.now self.entry.spacing SLOT CONTEXT-ENTRIES }
    {
        self.field(SLOT, Field::CONTEXT_ENTRIES)
    }

    pub fn endpoint_type(self, dci: Dci) -> Result<u64, NoReading>
        ensures { result ≡ endpoint_field_in self.entry.ctx.now self.entry.spacing dci.0 EP-TYPE }
    {
        self.endpoint_field(dci, Field::EP_TYPE)
    }

    pub fn max_packet_size(self, dci: Dci) -> Result<u64, NoReading>
        ensures { result ≡ endpoint_field_in self.entry.ctx.now self.entry.spacing dci.0 MAX-PACKET-SIZE }
    {
        self.endpoint_field(dci, Field::MAX_PACKET_SIZE)
    }
}

// The same without a view.
pub fn input_field(ctx: &[u8], spacing: usize, block: usize, f: Field) -> Result<u64, NoReading>
    ensures { result ≡ field_in ctx.now spacing block f }
{
    InputHandler { ctx, spacing }.field(block, f)
}

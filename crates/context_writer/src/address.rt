// The contexts of a bring-up: Address, and the Evaluate of the control endpoint's packet size.
ghost use Rattle.std.specs.Prelude.{◌≡◌, true, length};
ghost use Rattle.def.specs.Speed.{exponent_ok};
ghost use Rattle.context.specs.Place.{written, Spaced};
ghost use Rattle.context.specs.Steps.{address_context, max_packet_writes};

use context_block_writer::{control, endpoint, slot};
use context_field::Field;
use hub::Translator;

// What Address is given, from all zero.
pub fn address_context(
    ctx: &mut [u8],
    spacing: usize,
    speed: u8,
    route: u32,
    translator: Translator,
    root_port: u8,
    ring: u64,
)
    requires { Spaced spacing (length ctx.old) }
    ensures { ctx.new ≡ address_context spacing speed route translator root_port ring ctx.old }
{
    ctx.fill(0);
    context_field::put_field(ctx, Field::ADD_FLAGS, 3);
    slot::address_slot(
        &mut ctx[spacing..spacing + 32],
        speed,
        route,
        translator,
        root_port,
    );
    let start = spacing * 2;
    endpoint::address_endpoint(&mut ctx[start..start + 32], speed, ring);
}

// What the Evaluate of the control endpoint's packet size is given, from the header's byte.
pub fn setup_max_packet(ctx: &mut [u8], spacing: usize, speed: u8, byte: u8)
    requires spaced { Spaced spacing (length ctx.old) }
    requires byte_value { exponent_ok speed byte ≡ true }
    ensures { ctx.new ≡ written spacing (max_packet_writes speed byte) ctx.old }
{
    control::perper_change(ctx);
    context_field::put_field(ctx, Field::add_flag(1), 1);
    let size = def::header_packet_size(speed, byte);
    let at = spacing * 2;
    context_field::put_field(&mut ctx[at..at + 32], Field::MAX_PACKET_SIZE, size as u64);
}

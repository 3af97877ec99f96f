// The contexts of the other Evaluates: the end of a set configuration, and a hub update.
ghost use Rattle.std.specs.Prelude.{◌≡◌, ℕ, ◌≤◌, length};
ghost use Rattle.context.specs.Place.{written, Spaced};
ghost use Rattle.context.specs.Steps.{configuration_writes, hub_writes};

use context_block_writer::{control, slot};
use context_field::Field;

// What the last Evaluate of a set configuration is given.
#[tactic(auto, using(context_block_writer::proofs::Laws::control_written), unfolding(context::specs::Steps::configuration_writes, context_block::specs::FieldWrite::fields_written, context_block::specs::FieldWrite::inside, context_block::specs::FieldWrite::all_inside, context_block::specs::Blocks::changed))]
pub fn configuration_context(ctx: &mut [u8], value: u8)
    requires { 32 ≤ length ctx.old }
    ensures { (spacing : ℕ) → ctx.new ≡ written spacing (configuration_writes value) ctx.old }
{
    control::perper_change(ctx);
    context_field::put_field(ctx, Field::CONFIGURATION_VALUE, value as u64);
}

// What the Evaluate of a hub update is given.
pub fn hub_context(ctx: &mut [u8], spacing: usize, speed: u8, ports: u8, multi: bool, think: u8)
    requires { Spaced spacing (length ctx.old) }
    ensures { ctx.new ≡ written spacing (hub_writes speed ports multi think) ctx.old }
{
    control::perper_change(ctx);
    slot::hub_slot(&mut ctx[spacing..spacing + 32], speed, ports, multi, think);
}

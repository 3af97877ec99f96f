// The Input Control Context, the first 32 bytes of an input context (context.rs and device.rs of the original).
ghost use Rattle.std.specs.Prelude.{◌≡◌, ◌≤◌, length};
ghost use Rattle.context_block.specs.FieldWrite.{fields_written};
ghost use Rattle.context_block.specs.Blocks.{changed};

use context_field::Field;

// Drop flags 2 to 31 cleared, and of the add flags A0 alone set. The control block is the front of a context that is lent whole: this and
// what writes or reads that block alone in crates/context_writer ask for 32 bytes of it, since an array of them would have to be lent for
// each of their calls, and each contract would then say what becomes of the context around it.
#[tactic(auto, unfolding(context_block::specs::FieldWrite::fields_written, context_block::specs::Blocks::changed))]
pub fn perper_change(ctx: &mut [u8])
    requires { 32 ≤ length ctx.old }
    ensures { ctx.new ≡ fields_written changed ctx.old }
{
    context_field::put_field(ctx, Field::DROP_FLAGS, 0);
    context_field::put_field(ctx, Field::ADD_FLAGS, 1);
}

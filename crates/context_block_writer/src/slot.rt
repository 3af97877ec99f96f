// The Slot Context: what each step makes of its block (context.rs and device.rs of the original).
ghost use Rattle.std.specs.Prelude.{◌≡◌, length};
ghost use Rattle.context_block.specs.FieldWrite.{fields_written};
ghost use Rattle.context_block.specs.Blocks.{address_slot, hub_fields};

use context_field::Field;
use hub::Translator;

// The slot that Address is given, over a block that is all 0.
#[tactic(auto, unfolding(context_block::specs::FieldWrite::fields_written, context_block::specs::Blocks::address_slot))]
pub fn address_slot(block: &mut [u8], speed: u8, route: u32, translator: Translator, root_port: u8)
    requires { length block.old ≡ 32 }
    ensures { block.new ≡ fields_written (address_slot speed route translator root_port) block.old }
{
    context_field::put_field(block, Field::ROUTE_STRING, route as u64);
    context_field::put_field(block, Field::SPEED, speed as u64);
    context_field::put_field(block, Field::MTT, translator.multi as u64);
    context_field::put_field(block, Field::CONTEXT_ENTRIES, 1);
    context_field::put_field(block, Field::ROOT_HUB_PORT_NUMBER, root_port as u64);
    context_field::put_field(block, Field::PARENT_HUB_SLOT_ID, translator.slot_id as u64);
    context_field::put_field(block, Field::PARENT_PORT_NUMBER, translator.port as u64);
}

// The slot of a hub. Without multi the flag is cleared at Full speed only; the think time is written at High speed only.
#[tactic(auto, unfolding(context_block::specs::FieldWrite::fields_written, context_block::specs::Blocks::multi_fields, context_block::specs::Blocks::think_fields, context_block::specs::Blocks::hub_fields))]
pub fn hub_slot(block: &mut [u8], speed: u8, ports: u8, multi: bool, think: u8)
    requires { length block.old ≡ 32 }
    ensures { block.new ≡ fields_written (hub_fields speed ports multi think) block.old }
{
    context_field::put_field(block, Field::HUB, 1);
    if multi || speed == def::FULL {
        context_field::put_field(block, Field::MTT, multi as u64);
    }
    context_field::put_field(block, Field::NUMBER_OF_PORTS, ports as u64);
    if speed == def::HIGH {
        context_field::put_field(block, Field::TT_THINK_TIME, think as u64);
    }
}

// A word of the log, read.
ghost use Rattle.std.specs.Prelude.{◌≡◌};
ghost use Rattle.command_reader.specs.Read.{command_of};

use command_reader::Logged;

pub fn xhci_device_command_of(word: u32) -> Logged
    ensures { result ≡ command_of word }
{
    command_reader::command_of(word)
}

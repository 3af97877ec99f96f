// Settings for a wanted polling period, of a record. The parameters, and `Chosen`, are those of the C interface.
ghost use Rattle.device_image.specs.Image.{decode};
ghost use Rattle.choice.specs.Choose.{Answered};

use choice_list::Chosen;

// An alternate for each of up to eight interfaces that are named. Where the words are no record, 12.
pub fn xhci_device_choose(image: &[u64], names: &[u8], longest: u32) -> Chosen
    ensures { Answered (decode image.now) names.now longest result }
{
    let d = device_image::decode(image);
    choice::choose(&d, names, longest)
}

// What a call returns, and the record that it leaves. The five calls on a record and the commit differ in the call alone, and each is an export.
ghost use Rattle.std.specs.Prelude.{◌≡◌, false, cond, eqb, length};
ghost use Rattle.device_image.specs.Layout.{WORDS};
ghost use Rattle.device_image.specs.Image.{FixedIn, stored};
ghost use Rattle.device_image.specs.Fits.{Fits};
ghost use Rattle.answer.specs.Answered.{answered_of};

use answer::Answered;
use device::Called;

// The end of a call on a record, which goes back but for what no call changes. Where no word was logged it is as it came, and stays as it is.
pub fn finish(called: &Called, image: &mut [u64]) -> Answered
    ensures { (result ≡ answered_of called.now.answer called.now.count)
        × ((eqb called.now.count 0 ≡ false → FixedIn called.now.device image.old) →
        image.new ≡ cond (eqb called.now.count 0) image.old (stored called.now.device image.old))
        × (eqb called.now.count 0 ≡ false → length image.old ≡ WORDS → Fits called.now.device) }
{
    let r = answer::answered_of(called.answer, called.count);
    if called.count == 0 {
        return r;
    }
    device_image::update(called.device, image);
    r
}

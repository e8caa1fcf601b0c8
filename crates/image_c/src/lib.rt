// The check of a journal image, for programs in C.
#![tactic(auto)]

ghost use Rattle.std.specs.Prelude.{◌≡◌, ◌↔◌, pos};
ghost use Rattle.image.specs.Images.{IsImage};

use image::image::is_image;
use store::refusal::Refusal;

/// 0 where the bytes are the image of a journal, and else the number of that refusal, 15.
#[unsafe(no_mangle)]
pub extern "C" fn check_journal_image(image: &[u8]) -> i32
    ensures accepted { IsImage image.now ↔ (result ≡ pos 0) }
    ensures refused { (IsImage image.now → ⊥) ↔ (result ≡ pos 15) }
{
    if is_image(image) {
        0
    } else {
        i32::from(Refusal::NoImage.number())
    }
}

// The machine at opening.

ghost use Rattle.std.specs.Prelude.{◌≡◌, IfOk};
ghost use Rattle.pdp_def.specs.Laws.{core_of};
ghost use Rattle.pdp_machine.specs.Opening.{image_memory};

use mc_image::image::Image;
use mc_word::bytes::Memory;
use pdp_def::processor::Core;
use std::alloc::Global;

/// The processor at opening: memory is zero apart from the image, all registers and PS are zero, and PC is
/// the image's start.
pub fn open_core(alloc: Global, image: &Image) -> Result<Core, Memory>
    ensures { IfOk result (λ c. c ≡ core_of 0 0 0 0 0 0 0 image.now.start 0 (image_memory 28672 image.now.blocks)) }
{
    let mut core = Core::new(alloc)?;
    for block in image.blocks() {
        core.fill(block.address, block.bytes.as_slice());
    }
    core.set_register(7, image.start());
    Ok(core)
}

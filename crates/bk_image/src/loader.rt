//! The loader.
ghost use Rattle.std.specs.Prelude.{◌≡◌, ◌⊎◌, IfOk, IfErr, Ok, Err};
ghost use Rattle.bk_code.specs.declared.image.Image.{Image};
ghost use Rattle.bk_image.specs.Encoding.{Encodes, IsFault};

use crate::LoadFault;
use crate::depths::stack_fault;
use crate::numbers::number_fault;
use crate::reading::layout;
use bk_code::Image;
use std::alloc::Global;

/// The image that the bytes encode.
///
/// The checks come in three rounds: the layout in the order of reading, then the numbers, then the depths of the stack.
/// The fault is the first one, by its place, of the first round that has one.
pub fn load(alloc: Global, bytes: &[u8]) -> Result<Image, LoadFault>
    ensures found { IfOk result (λ image. Encodes bytes.now image) }
    ensures only { (image : Image) → Encodes bytes.now image → (result ≡ Ok image) ⊎ (result ≡ Err LoadFault.Memory) }
    ensures fault { IfErr result (IsFault bytes.now) }
{
    load_in_rounds(alloc, bytes)
}

fn load_in_rounds(alloc: Global, bytes: &[u8]) -> Result<Image, LoadFault>
    ensures found { IfOk result (λ image. Encodes bytes.now image) }
    ensures fault { IfErr result (IsFault bytes.now) }
{
    let (version, image) = layout(alloc, bytes)?;
    if let Some(fault) = number_fault(version, &image) {
        return Err(fault);
    }
    match stack_fault(alloc, &image)? {
        Some(at) => Err(LoadFault::Stack(at)),
        None => Ok(image),
    }
}

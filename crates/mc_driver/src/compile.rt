// The command `compile`, and the image that `run` runs.

ghost use Rattle.std.specs.Prelude.{◌≡◌, ◌≤◌, ◌<◌, ◌^◌, ℕ, [], ◌∷◌, ◌++◌, length, codes, decimal, Option, Some, option_map, IfOk, IfErr};
ghost use Rattle.mc_shelf.specs.declared.ask.Ask.{Ask};
ghost use Rattle.mc_image.specs.Image.{ImageState};
ghost use Rattle.mc_image.specs.Format.{IsImage, image_bytes};
ghost use Rattle.mc_compile.specs.Accepted.{IsNotCompiled};
ghost use Rattle.mc_compile.specs.Tracks.{CompiledFrom};
ghost use Rattle.mc_words.specs.Settings.{numbers_of};
ghost use Rattle.mc_driver.specs.Outside.{EndsSaving};
ghost use Rattle.mc_driver.specs.Stages.{SavesWhenDone, IsSaved, settings_load};
ghost use Rattle.mc_driver.specs.CompileAnswer.{AfterCompiling, IsCompiledUnder, IsCompileAnswer};

use crate::files::{FileKind, USUAL, load, load_settings, refuse, say};
use crate::status::{DONE, FAILED, NO_MEMORY};
use arrayvec::ArrayVec;
use mc_compile::compile::compile as compile_source;
use mc_compile::refusal::Refusal;
use mc_image::fault::ImageFault;
use mc_image::image::Image;
use mc_image::{read_image, write_image};
use mc_report::digits::{decimal_digits, put};
use mc_shelf::shelf::{PutFault, Shelf};
use mc_word::word::Settings;
use std::alloc::Global;

// The bytes of the image that is compiled from a source.
fn compiled_bytes(alloc: Global, source: &[u8], settings: Settings) -> Result<Vec<u8>, Refusal>
    requires { length source.now ≤ 262144 }
    ensures ok { IfOk result (λ bytes. (i : ImageState) × CompiledFrom source.now settings.workspace_words settings.processes i × (bytes.items ≡ image_bytes i) × IsImage bytes.items i) }
    ensures refused { IfErr result (λ refusal. IsNotCompiled source.now refusal) }
{
    match compile_source(alloc, source, settings) {
        Ok(image) => Ok(write_image(alloc, &image)?),
        Err(refusal) => Err(refusal),
    }
}

/// Compiles a source, and reads its image from the bytes that are written of it.
///
/// # Errors
///
/// The refusal of the source, and `Memory`.
pub fn image_of(alloc: Global, source: &[u8], settings: Settings) -> Result<Image, Refusal>
    requires { length source.now ≤ 262144 }
    ensures ok { IfOk result (λ i. CompiledFrom source.now settings.workspace_words settings.processes i) }
    ensures refused { IfErr result (λ refusal. IsNotCompiled source.now refusal) }
{
    match compiled_bytes(alloc, source, settings) {
        Ok(bytes) => match read_image(alloc, bytes.as_slice()) {
            Ok(image) => Ok(image),
            // What was written is an image, so it has no fault.
            Err(fault) => match fault {
                ImageFault::Memory => Err(Refusal::Memory),
                _ => unreachable!(),
            },
        },
        Err(refusal) => Err(refusal),
    }
}

// `image L`, with the number of bytes that were saved.
fn saved_line(count: usize) -> ArrayVec<u8, 32>
    ensures { result.items ≡ codes "image " ++ decimal count ++ codes "\n" }
{
    let mut line = ArrayVec::new();
    put(&mut line, b"image ");
    put(&mut line, decimal_digits(count as u64).as_slice());
    put(&mut line, b"\n");
    line
}

// Saves the bytes of an image, and says their number.
fn save<S: Shelf>(name: &str, bytes: &[u8], shelf: &mut S) -> u8
    ensures { EndsSaving (S.seen shelf.old) (Ask.Save name.now ∷ []) (Some name.now) (λ known. IsSaved name.now bytes.now) result (S.seen shelf.new) }
{
    match shelf.save(name, bytes) {
        Ok(()) => say(shelf, saved_line(bytes.len()).as_slice(), DONE),
        Err(PutFault::Failed) => FAILED,
        Err(PutFault::Memory) => NO_MEMORY,
    }
}

// Compiles a source, and saves its image.
fn save_image<S: Shelf>(
    alloc: Global,
    source: &[u8],
    image: &str,
    settings: Settings,
    shelf: &mut S,
) -> u8
    requires { length source.now ≤ 262144 }
    ensures { EndsSaving (S.seen shelf.old) (Ask.Save image.now ∷ []) (Some image.now) (SavesWhenDone (λ known. AfterCompiling source.now (numbers_of settings) image.now)) result (S.seen shelf.new) }
{
    match compiled_bytes(alloc, source, settings) {
        Ok(bytes) => save(image, bytes.as_slice(), shelf),
        Err(refusal) => refuse(refusal, shelf),
    }
}

// The command `compile` under settings.
fn compile_under<S: Shelf>(
    alloc: Global,
    source: &str,
    image: &str,
    settings: Settings,
    shelf: &mut S,
) -> u8
    ensures { EndsSaving (S.seen shelf.old) (Ask.Load source.now ∷ Ask.Save image.now ∷ []) (Some image.now) (SavesWhenDone (IsCompiledUnder source.now image.now (numbers_of settings))) result (S.seen shelf.new) }
{
    match load(alloc, source, FileKind::Source, shelf) {
        Ok(bytes) => save_image(alloc, bytes.as_slice(), image, settings, shelf),
        Err(status) => status,
    }
}

/// The command `compile`.
pub fn compile<S: Shelf>(
    alloc: Global,
    source: &str,
    image: &str,
    settings: Option<&str>,
    shelf: &mut S,
) -> u8
    ensures { EndsSaving (S.seen shelf.old) (settings_load (option_map (λ s. s.now) settings.entry) ++ Ask.Load source.now ∷ Ask.Save image.now ∷ []) (Some image.now) (IsCompileAnswer source.now image.now (option_map (λ s. s.now) settings.entry)) result (S.seen shelf.new) }
{
    match settings {
        None => compile_under(alloc, source, image, USUAL, shelf),
        Some(name) => match load_settings(alloc, name, shelf) {
            Ok(settings) => compile_under(alloc, source, image, settings, shelf),
            Err(status) => status,
        },
    }
}

// What commands ask of the outside besides reports: files that are loaded, and lines that are printed.

ghost use Rattle.std.specs.Prelude.{◌≡◌, ◌≢◌, [], ◌∷◌, length, ℕ, List, Ok, IfOk, IfErr};
ghost use Rattle.mc_shelf.specs.declared.ask.Ask.{Ask};
ghost use Rattle.mc_words.specs.Settings.{AnswersSettings, numbers_of};
ghost use Rattle.mc_image.specs.Format.{IsImage};
ghost use Rattle.mc_script.specs.Texts.{IsText};
ghost use Rattle.mc_driver.specs.Outside.{Loaded, Unloaded, Says, Ends};
ghost use Rattle.mc_driver.specs.Refusal.{IsSaid};
ghost use Rattle.mc_driver.specs.Stages.{most, too_long_line, AsksNothing, AfterLoad, AfterImage, AfterScript, AfterReadingSettings};

use crate::refusal::{image_line, script_line, setting_line, source_line};
use crate::status::{
    BAD_IMAGE, BAD_SCRIPT, BAD_SETTINGS, BAD_SOURCE, FAILED, NO_MEMORY, NOT_YET, TOO_LARGE,
    TOO_LONG,
};
use mc_compile::refusal::Refusal;
use mc_image::image::Image;
use mc_image::read_image;
use mc_script::read_script;
use mc_script::script::Script;
use mc_shelf::shelf::{LoadFault, PutFault, Shelf};
use mc_word::word::Settings;
use mc_words::read_settings;
use std::alloc::Global;

/// What is meant where no settings are given.
pub const USUAL: Settings = Settings {
    workspace_words: 200,
    processes: 16,
};

/// What a file holds.
#[derive(Clone, Copy, PartialEq, Eq, Debug)]
pub enum FileKind {
    Source,
    Script,
    Image,
    Settings,
}

impl FileKind {
    // How many bytes a file of this kind has at most.
    fn most(self) -> usize
        ensures { result ≡ most self }
    {
        match self {
            FileKind::Source => 262_144,
            FileKind::Script => 1_048_576,
            FileKind::Image => 131_072,
            FileKind::Settings => 4_096,
        }
    }

    // What is said of a file that has more.
    fn too_long(self) -> &'static [u8]
        ensures { result.now ≡ too_long_line self }
    {
        match self {
            FileKind::Source => b"too long source\n",
            FileKind::Script => b"too long script\n",
            FileKind::Image => b"too long image\n",
            FileKind::Settings => b"too long settings\n",
        }
    }
}

/// Prints a line, and answers the status that goes with it, or why it could not be printed.
pub fn say<S: Shelf>(shelf: &mut S, line: &[u8], status: u8) -> u8
    requires failed { status ≢ 11 }
    requires memory { status ≢ 12 }
    ensures { Says (S.seen shelf.old) line.now status result (S.seen shelf.new) }
{
    match shelf.print(line) {
        Ok(()) => status,
        Err(PutFault::Failed) => FAILED,
        Err(PutFault::Memory) => NO_MEMORY,
    }
}

/// Says why a source is refused.
pub fn refuse<S: Shelf>(refusal: Refusal, shelf: &mut S) -> u8
    ensures { Ends (S.seen shelf.old) [] (λ files. AsksNothing (IsSaid refusal)) result (S.seen shelf.new) }
{
    match refusal {
        Refusal::Source(code, place) => say(shelf, source_line(code, place).as_slice(), BAD_SOURCE),
        Refusal::TooLarge => say(shelf, b"too large\n", TOO_LARGE),
        Refusal::NotYet => say(shelf, b"not yet source\n", NOT_YET),
        Refusal::Memory => NO_MEMORY,
    }
}

/// Loads a file.
///
/// # Errors
///
/// The status of the answer, whose line is printed where it has one.
pub fn load<S: Shelf>(
    alloc: Global,
    name: &str,
    kind: FileKind,
    shelf: &mut S,
) -> Result<Vec<u8>, u8>
    ensures ok { IfOk result (λ bytes. Loaded (S.seen shelf.old) name.now (most kind) bytes.items (S.seen shelf.new)) }
    ensures refused { IfErr result (λ status. Unloaded (S.seen shelf.old) name.now (most kind) (too_long_line kind) status (S.seen shelf.new)) }
{
    match shelf.load(alloc, name, kind.most()) {
        Ok(bytes) => Ok(bytes),
        Err(LoadFault::Failed) => Err(FAILED),
        Err(LoadFault::TooLong) => Err(say(shelf, kind.too_long(), TOO_LONG)),
        Err(LoadFault::Memory) => Err(NO_MEMORY),
    }
}

/// Loads and reads an image.
///
/// # Errors
///
/// The status of the answer, whose line is printed where it has one.
pub fn load_image<S: Shelf>(alloc: Global, name: &str, shelf: &mut S) -> Result<Image, u8>
    ensures ok { IfOk result (λ image. (bytes : List ℕ) × Loaded (S.seen shelf.old) name.now 131072 bytes (S.seen shelf.new) × IsImage bytes image) }
    ensures refused { IfErr result (λ status. Ends (S.seen shelf.old) (Ask.Load name.now ∷ []) (AfterLoad FileKind.Image name.now (λ bytes. AfterImage bytes (λ image asked status text. ⊥))) status (S.seen shelf.new)) }
{
    let bytes = match load(alloc, name, FileKind::Image, shelf) {
        Ok(bytes) => bytes,
        Err(status) => return Err(status),
    };
    match read_image(alloc, bytes.as_slice()) {
        Ok(image) => Ok(image),
        Err(fault) => match image_line(fault) {
            Some(line) => Err(say(shelf, line.as_slice(), BAD_IMAGE)),
            None => Err(NO_MEMORY),
        },
    }
}

/// Loads and reads a script.
///
/// # Errors
///
/// The status of the answer, whose line is printed where it has one.
pub fn load_script<S: Shelf>(alloc: Global, name: &str, shelf: &mut S) -> Result<Script, u8>
    ensures ok { IfOk result (λ script. (text : List ℕ) × Loaded (S.seen shelf.old) name.now 1048576 text (S.seen shelf.new) × IsText text script) }
    ensures refused { IfErr result (λ status. Ends (S.seen shelf.old) (Ask.Load name.now ∷ []) (AfterLoad FileKind.Script name.now (λ text. AfterScript text (λ script asked status line. ⊥))) status (S.seen shelf.new)) }
{
    let text = match load(alloc, name, FileKind::Script, shelf) {
        Ok(text) => text,
        Err(status) => return Err(status),
    };
    match read_script(alloc, text.as_slice()) {
        Ok(script) => Ok(script),
        Err(fault) => match script_line(fault) {
            Some(line) => Err(say(shelf, line.as_slice(), BAD_SCRIPT)),
            None => Err(NO_MEMORY),
        },
    }
}

/// Loads and reads settings.
///
/// # Errors
///
/// The status of the answer, whose line is printed where it has one.
pub fn load_settings<S: Shelf>(alloc: Global, name: &str, shelf: &mut S) -> Result<Settings, u8>
    ensures ok { IfOk result (λ settings. (bytes : List ℕ) × Loaded (S.seen shelf.old) name.now 4096 bytes (S.seen shelf.new) × AnswersSettings bytes (Ok (numbers_of settings))) }
    ensures refused { IfErr result (λ status. Ends (S.seen shelf.old) (Ask.Load name.now ∷ []) (AfterLoad FileKind.Settings name.now (λ bytes. AfterReadingSettings bytes (λ numbers asked status line. ⊥))) status (S.seen shelf.new)) }
{
    let bytes = match load(alloc, name, FileKind::Settings, shelf) {
        Ok(bytes) => bytes,
        Err(status) => return Err(status),
    };
    match read_settings(alloc, bytes.as_slice()) {
        Ok(settings) => Ok(settings),
        Err(fault) => match setting_line(fault) {
            Some(line) => Err(say(shelf, line.as_slice(), BAD_SETTINGS)),
            None => Err(NO_MEMORY),
        },
    }
}

// The commands that run the machine.

ghost use Rattle.std.specs.Prelude.{◌≡◌, ◌≢◌, ◌≤◌, [], ◌∷◌, ◌++◌, length, IsSome, option_map};
ghost use Rattle.mc_shelf.specs.declared.ask.Ask.{Ask};
ghost use Rattle.pdp_machine.specs.Run.{machine_run};
ghost use Rattle.mc_driver.specs.Outside.{Ends};
ghost use Rattle.mc_driver.specs.Run.{status_of, ending_for, IsReport};
ghost use Rattle.mc_words.specs.Settings.{numbers_of};
ghost use Rattle.mc_driver.specs.Stages.{AsksNothing, settings_load};
ghost use Rattle.mc_driver.specs.RunAnswer.{AfterSource, IsRunUnder, IsRunAnswer};
ghost use Rattle.mc_driver.specs.ExecAnswer.{IsExecAnswer};

use crate::compile::image_of;
use crate::drive::print_report;
use crate::ending::{Origin, status_of};
use crate::files::{FileKind, USUAL, load, load_image, load_script, load_settings, refuse};
use crate::status::{FAILED, NO_MEMORY};
use mc_image::image::Image;
use mc_report::pieces::Pieces;
use mc_script::script::Script;
use mc_shelf::shelf::{PutFault, Shelf};
use mc_word::word::Settings;
use pdp_machine::machine::Machine;
use std::alloc::Global;

// Runs an image under a script, and prints the report.
fn play<S: Shelf>(
    alloc: Global,
    image: &Image,
    script: &Script,
    origin: Origin,
    journal: bool,
    shelf: &mut S,
) -> u8
    ensures { Ends (S.seen shelf.old) [] (λ files. AsksNothing (IsReport origin journal image.now script.now)) result (S.seen shelf.new) }
{
    let Ok(mut machine) = Machine::open(alloc, image, script) else {
        return NO_MEMORY;
    };
    let Ok(mut pieces) = Pieces::new(alloc) else {
        return NO_MEMORY;
    };
    match print_report(&mut machine, &mut pieces, origin, journal, shelf) {
        Ok(ending) => status_of(ending),
        Err(PutFault::Failed) => FAILED,
        Err(PutFault::Memory) => NO_MEMORY,
    }
}

// Compiles a source, reads its image from the bytes that are written of it, runs it under a script, and prints the report.
fn run_source<S: Shelf>(
    alloc: Global,
    source: &[u8],
    script: &Script,
    settings: Settings,
    journal: bool,
    shelf: &mut S,
) -> u8
    requires { length source.now ≤ 262144 }
    ensures { Ends (S.seen shelf.old) [] (λ files. AsksNothing (AfterSource source.now (numbers_of settings) journal script.now)) result (S.seen shelf.new) }
{
    match image_of(alloc, source, settings) {
        Ok(image) => play(alloc, &image, script, Origin::Compiled, journal, shelf),
        Err(refusal) => refuse(refusal, shelf),
    }
}

// The command `run` under settings.
fn run_under<S: Shelf>(
    alloc: Global,
    source: &str,
    script: &str,
    settings: Settings,
    journal: bool,
    shelf: &mut S,
) -> u8
    ensures { Ends (S.seen shelf.old) (Ask.Load source.now ∷ Ask.Load script.now ∷ []) (λ files. IsRunUnder source.now script.now journal files (numbers_of settings)) result (S.seen shelf.new) }
{
    let source = match load(alloc, source, FileKind::Source, shelf) {
        Ok(source) => source,
        Err(status) => return status,
    };
    let script = match load_script(alloc, script, shelf) {
        Ok(script) => script,
        Err(status) => return status,
    };
    run_source(alloc, source.as_slice(), &script, settings, journal, shelf)
}

/// The command `run`.
pub fn run<S: Shelf>(
    alloc: Global,
    source: &str,
    script: &str,
    settings: Option<&str>,
    journal: bool,
    shelf: &mut S,
) -> u8
    ensures { Ends (S.seen shelf.old) (settings_load (option_map (λ s. s.now) settings.entry) ++ Ask.Load source.now ∷ Ask.Load script.now ∷ []) (IsRunAnswer source.now script.now (option_map (λ s. s.now) settings.entry) journal) result (S.seen shelf.new) }
{
    match settings {
        None => run_under(alloc, source, script, USUAL, journal, shelf),
        Some(name) => match load_settings(alloc, name, shelf) {
            Ok(settings) => run_under(alloc, source, script, settings, journal, shelf),
            Err(status) => status,
        },
    }
}

/// The command `exec`.
pub fn exec<S: Shelf>(alloc: Global, image: &str, script: &str, journal: bool, shelf: &mut S) -> u8
    ensures { Ends (S.seen shelf.old) (Ask.Load image.now ∷ Ask.Load script.now ∷ []) (IsExecAnswer image.now script.now journal) result (S.seen shelf.new) }
{
    let image = match load_image(alloc, image, shelf) {
        Ok(image) => image,
        Err(status) => return status,
    };
    let script = match load_script(alloc, script, shelf) {
        Ok(script) => script,
        Err(status) => return status,
    };
    play(alloc, &image, &script, Origin::Foreign, journal, shelf)
}

// The command `check`.

ghost use Rattle.std.specs.Prelude.{◌≤◌, ◌∷◌, [], length, IfOk, IfErr};
ghost use Rattle.mc_prog.specs.Resolved.{Resolved};
ghost use Rattle.mc_compile.specs.Accepted.{IsAccepted, IsRefused};
ghost use Rattle.mc_shelf.specs.declared.ask.Ask.{Ask};
ghost use Rattle.mc_driver.specs.Outside.{Ends};
ghost use Rattle.mc_driver.specs.Stages.{AsksNothing};
ghost use Rattle.mc_driver.specs.CheckAnswer.{AfterChecking, IsCheckAnswer};

use crate::files::{FileKind, load, refuse, say};
use crate::status::DONE;
use mc_compile::accept::accept;
use mc_compile::refusal::Refusal;
use mc_shelf::shelf::Shelf;
use std::alloc::Global;

// Whether a source is accepted.
fn accepts(alloc: Global, source: &[u8]) -> Result<(), Refusal>
    requires { length source.now ≤ 262144 }
    ensures ok { IfOk result (λ done. (program : Resolved) × IsAccepted source.now program) }
    ensures refused { IfErr result (λ refusal. IsRefused source.now refusal) }
{
    match accept(alloc, source) {
        Ok(_) => Ok(()),
        Err(refusal) => Err(refusal),
    }
}

// Says whether a source is accepted.
fn check_source<S: Shelf>(alloc: Global, source: &[u8], shelf: &mut S) -> u8
    requires { length source.now ≤ 262144 }
    ensures { Ends (S.seen shelf.old) [] (λ files. AsksNothing (AfterChecking source.now)) result (S.seen shelf.new) }
{
    match accepts(alloc, source) {
        Ok(()) => say(shelf, b"ok\n", DONE),
        Err(refusal) => refuse(refusal, shelf),
    }
}

/// The command `check`.
pub fn check<S: Shelf>(alloc: Global, source: &str, shelf: &mut S) -> u8
    ensures { Ends (S.seen shelf.old) (Ask.Load source.now ∷ []) (IsCheckAnswer source.now) result (S.seen shelf.new) }
{
    match load(alloc, source, FileKind::Source, shelf) {
        Ok(bytes) => check_source(alloc, bytes.as_slice(), shelf),
        Err(status) => status,
    }
}

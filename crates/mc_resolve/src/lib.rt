// Scopes: every use of a name with its declaration, or the first scope fault.
#![tactic(auto)]

mod declaration;
mod expression;
mod fault;
mod item;
mod module;
mod named;
mod put;
mod resolver;
mod scope;
mod search;
mod statement;
mod table;
mod uses;

ghost use Rattle.std.specs.Prelude.{IfOk, IfErr};
ghost use Rattle.mc_prog.specs.Namings.{AreNamingsOf};
ghost use Rattle.mc_resolve.specs.Refusals.{HasNoScopeFault, IsRefused};

use crate::module::names;
use crate::resolver::behind;
pub use fault::ResolveFault;
use mc_prog::scoped::Scoped;
use mc_tree::tree::Tree;
use std::alloc::Global;

/// The uses of names in a program, each with its declaration.
///
/// # Errors
///
/// `Refused` has the first fault of scopes: that of the least place, and at one place that of the least number.
pub fn resolve(alloc: Global, tree: &Tree) -> Result<Scoped, ResolveFault>
    ensures ok { IfOk result (λ scoped. AreNamingsOf tree.now scoped) }
    ensures without_fault { IfOk result (λ scoped. HasNoScopeFault tree.now) }
    ensures refused { IfErr result (λ fault. IsRefused tree.now fault) }
{
    let items = names(alloc, tree)?;
    let resolver = behind(alloc, items.as_slice())?;
    resolver.answer()
}

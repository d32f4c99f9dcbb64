// The words of the command line, and what they bring about.

ghost use Rattle.std.specs.Prelude.{◌≡◌, ℕ, List, drop, IfOk};
ghost use Rattle.std.specs.Vec.Iter.{into_iter_items};
ghost use Rattle.mc_driver.specs.Answer.{HasStatus};

use crate::dir_shelf::DirShelf;
use mc_driver::modula;
use mc_word::bytes::Memory;
use std::alloc::{Alloc, Global};
use std::env;
use std::env::Args;
use std::io::ErrorKind;
use std::rt::{Env, Files};

/// The status of want of memory.
const NO_MEMORY: u8 = 12;

// All words but the first, which is the program's name, in their order.
fn behind_the_name(alloc: Global, mut all: Args) -> Result<Vec<String>, Memory>
    ensures { IfOk result (λ words. words.items ≡ drop 1 (into_iter_items all)) }
{
    let _name = all.next();
    let mut words = Vec::new(alloc);
    for word in all {
        words.push(word)?;
    }
    Ok(words)
}

// The words behind the program's name. A word that is no UTF-8 makes the command line one that no command reads, and so
// do words that the system can't give; want of memory is said.
fn words<R: Env + Alloc<A = Global>>(rt: &R) -> Result<Vec<String>, Memory> {
    match env::args(rt) {
        Ok(all) => behind_the_name(rt.alloc(), all),
        Err(error) => match error.kind() {
            ErrorKind::OutOfMemory => Err(Memory),
            _ => Ok(Vec::new(rt.alloc())),
        },
    }
}

/// Does what the words of the command line ask, over real files and standard output. Answers the status of the program's end:
/// that of `modula`, or 12 where there is no memory for the words.
pub fn program<R: Env + Alloc<A = Global> + Files + Print>(rt: &R) -> u8
    ensures { (words : List (List ℕ)) × HasStatus words result }
{
    let Ok(words) = words(rt) else {
        return NO_MEMORY;
    };
    let mut shelf = DirShelf::new(rt);
    modula(rt.alloc(), words.as_slice(), &mut shelf)
}

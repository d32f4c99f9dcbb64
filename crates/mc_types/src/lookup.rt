// What is known where a piece stands.

use crate::names::{Entities, Uses};
use mc_prog::program::{ModuleInfo, TypeInfo};
use mc_prog::typing::Takes;

/// What is known where a piece stands: the uses of names, what is declared, types, modules, and what procedures and
/// processes take.
#[derive(Clone, Copy)]
pub struct Known<'k> {
    pub uses: &'k Uses,
    pub entities: &'k Entities,
    pub types: &'k [TypeInfo],
    pub modules: &'k [ModuleInfo],
    pub procedures: &'k [Takes],
    pub processes: &'k [Takes],
}

// The rules of modules and devices, over whole sources.

use crate::rows::{Stage, mismatch};
use crate::rule_rows::RULES;
use std::test::Fail;

#[test]
fn names_the_first_fault_of_rules(rt: HostRuntime) -> Result<(), Fail> {
    let mismatch = mismatch(rt.alloc(), Stage::Rules, RULES)?;
    assert!(rt; mismatch.is_none(), "{mismatch:?}");
    Ok(())
}

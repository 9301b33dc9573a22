//! Proxies: what a side gets of a value.

use crate::taking_answers::Taken;
use rp_tests_cases::all_answer;
use std::test::Fail;

/// A value, the owner of its object, the side that takes it, and what it gets.
const TAKEN: &str = r#"rock => 0 => 0 => rock
rock => 0 => 1 => rock
rock => 1 => 2 => rock
plain => 0 => 0 => plain
plain => 1 => 0 => plain
proxy => 0 => 0 => proxy
proxy => 1 => 0 => proxy
plain => 0 => 1 => proxy
proxy => 0 => 1 => proxy
plain => 1 => 1 => plain
proxy => 1 => 1 => plain
plain => 1 => 2 => proxy
proxy => 1 => 2 => proxy
proxy => 2 => 2 => plain"#;

#[test]
fn each_side_gets_what_it_may_have(rt: HostRuntime) -> Result<(), Fail> {
    all_answer(rt.alloc(), &Taken, TAKEN)
}

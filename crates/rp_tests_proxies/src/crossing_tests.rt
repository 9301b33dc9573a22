//! The decisions on operations through proxies.

use crate::crossing_answers::Crossed;
use rp_tests_cases::all_answer;
use std::test::Fail;

/// Who does it, in how many cells, how often, what is done, and what comes of it.
const CROSSED: &str = r#"bob => 9 => 1 => proxy get title => goes on; 1 entries, 1 used, 1 kept
bob => 9 => 2 => proxy get title => goes on; goes on; 2 entries, 2 used, 1 kept
eve => 9 => 1 => proxy get title => Unauthorized: zope.View; 1 entries, 1 used, 1 kept
bob => 9 => 1 => proxy set title => Unauthorized: zope.Manage; 1 entries, 1 used, 1 kept
eve => 9 => 1 => proxy get size => goes on; 1 entries, 1 used, 0 kept
eve => 9 => 1 => proxy get __str__ => goes on; 1 entries, 1 used, 0 kept
bob => 9 => 1 => proxy set size => ForbiddenAttribute: size; 1 entries, 1 used, 0 kept
bob => 9 => 1 => proxy get __call__ => ForbiddenAttribute: __call__; 1 entries, 1 used, 0 kept
bob => 9 => 1 => proxy get nowhere => ForbiddenAttribute: ; 1 entries, 1 used, 0 kept
bob => 9 => 1 => proxy set nowhere => ForbiddenAttribute: ; 1 entries, 1 used, 0 kept
bob => 9 => 1 => plain get nowhere => goes on; 0 entries, 0 used, 0 kept
bob => 0 => 1 => proxy get title => no cell; 0 entries, 0 used, 0 kept
bob => 1 => 2 => proxy get title => goes on; no cell; 1 entries, 1 used, 1 kept
eve => 0 => 2 => plain get title => goes on; goes on; 0 entries, 0 used, 0 kept
eve => 0 => 2 => rock get title => goes on; goes on; 0 entries, 0 used, 0 kept"#;

#[test]
fn operations_on_proxies_are_decided(rt: HostRuntime) -> Result<(), Fail> {
    all_answer(rt.alloc(), &Crossed, CROSSED)
}

//! Interactions: who has which permission, and why.

use crate::interaction_answers::{Decided, Have, Why, are_decided_in_order};
use rp_tests_cases::all_answer;
use std::test::Fail;

const LEAST: &str = r#"roles => zope.View => yes role m
roles => zope.Edit => yes role m
roles => zope.Manage => yes role a
roles => zope.Close => no none
groups => zope.View => yes group x role m
groups => zope.Manage => yes group x
groups => zope.Close => no group x
groups => zope.Public => yes public
nobody => zope.View => no none
nobody => zope.Public => yes public
eve => zope.View => unknown"#;

const EACH: &str = r#"roles => zope.View => true true 1 1
roles+groups => zope.View => true true 2 1
roles+nobody => zope.View => false true 2 1
nobody+roles => zope.View => false true 2 1
roles+roles+roles => zope.Manage => true true 3 1
nobody+groups+nobody => zope.Public => true true 3 1
groups => zope.Close => false true 1 1
roles+zed+eve => zope.View => zed
eve => zope.Public => eve"#;

/// How many permissions there are but for `zope.Public`, how many are decided, and how many answers are kept.
const KEPT: &str = r#"0 => 1 decided, 1 kept
1 => 2 decided, 2 kept
63 => 64 decided, 64 kept
64 => 65 decided, 64 kept
70 => 71 decided, 64 kept"#;

#[test]
fn the_first_rule_decides_in_every_order(rt: HostRuntime) -> Result<(), Fail> {
    are_decided_in_order(rt.alloc())
}

#[test]
fn the_least_group_and_role_are_told(rt: HostRuntime) -> Result<(), Fail> {
    all_answer(rt.alloc(), &Why, LEAST)
}

#[test]
fn each_participation_has_to_have_it(rt: HostRuntime) -> Result<(), Fail> {
    all_answer(rt.alloc(), &Have, EACH)
}

#[test]
fn the_last_64_answers_are_kept(rt: HostRuntime) -> Result<(), Fail> {
    all_answer(rt.alloc(), &Decided, KEPT)
}

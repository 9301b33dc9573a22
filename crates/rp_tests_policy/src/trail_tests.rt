//! The trail: what an entry costs, and its line.

use crate::trail_answers::{Line, pushed};
use rp_tests_cases::{all_answer, is_told};
use std::test::Fail;

/// The number before an entry's, what is done, the verdict, and the line.
const VERDICTS: &str =
    r#"0 => get Folder.title => public => 1 3 bob allow get Folder.title zope.Public~
0 => get Folder.title => needs 2 => 1 3 bob allow get Folder.title zope.View~
0 => get Folder.title => default => 1 3 bob allow get Folder.title default~
0 => get Folder.title => denied 0 => 1 3 bob deny get Folder.title zope.Manage~
0 => get Folder.title => forbidden => 1 3 bob forbid get Folder.title~
0 => get Folder.- => forbidden => 1 3 bob forbid get Folder.~"#;

const CLASSES: &str = r#"0 => get list.x => forbidden => 1 3 bob forbid get list.x~
1 => set tuple.x => forbidden => 2 3 bob forbid set tuple.x~
8 => get dict.x => forbidden => 9 3 bob forbid get dict.x~
9 => set function.x => forbidden => 10 3 bob forbid set function.x~
99 => get method.x => forbidden => 100 3 bob forbid get method.x~
100 => set class.x => forbidden => 101 3 bob forbid set class.x~
7 => get instance.x => forbidden => 8 3 bob forbid get instance.x~
7 => set Folder.x => forbidden => 8 3 bob forbid set Folder.x~"#;

#[test]
fn an_entry_costs_a_cell(rt: HostRuntime) -> Result<(), Fail> {
    let told = pushed(rt.alloc(), 2, 3)?;
    let wanted = "empty; 1 used, 1 entries; 2 used, 2 entries; no cell, 2 used, 2 entries; ";
    is_told(rt.alloc(), "three entries", told.as_str(), wanted)
}

#[test]
fn each_verdict_is_told(rt: HostRuntime) -> Result<(), Fail> {
    all_answer(rt.alloc(), &Line, VERDICTS)
}

#[test]
fn each_class_and_operation_is_told(rt: HostRuntime) -> Result<(), Fail> {
    all_answer(rt.alloc(), &Line, CLASSES)
}

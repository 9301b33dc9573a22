//! Checkers: the row of each class for each name.

use crate::checker_answers::{RowInChain, RowInShop};
use rp_tests_cases::all_answer;
use std::test::Fail;

const DECLARED: &str = r#"Base => get title => zope.View
Base => get owner => zope.Manage
Base => get price => public
Base => set title => zope.Edit
Base => set owner => forbidden
Base => set price => public
Base => get size => forbidden
Folder => get title => zope.View
Folder => get owner => public
Folder => get size => zope.View
Folder => set size => zope.Manage
Folder => set title => zope.Manage
Folder => set price => public
Folder => get __len__ => zope.Edit
Shop => get title => zope.View
Shop => get owner => public
Shop => set title => zope.Manage
Shop => get __str__ => zope.Manage
Shop => get nothing => forbidden
Plain => get title => forbidden"#;

const BUILT_IN: &str = r#"list => get __getitem__ => public
list => get index => public
list => get append => forbidden
list => get keys => forbidden
list => set index => forbidden
list => get __setitem__ => forbidden
tuple => get count => public
tuple => get __iter__ => public
dict => get items => public
dict => get copy => public
dict => get __len__ => public
dict => get index => forbidden
dict => get pop => forbidden
method => get __call__ => public
function => get __call__ => public
function => get __getitem__ => forbidden
class => get __call__ => forbidden
class => get __eq__ => default
list => get __eq__ => default
other => get __str__ => default
other => get __ge__ => default
other => set __str__ => forbidden
other => get title => forbidden
Undeclared => get title => forbidden
Undeclared => get __bool__ => default
Base => get __ne__ => default
Base => get __add__ => forbidden
Base => set __lt__ => forbidden"#;

#[test]
fn own_rows_beat_copied_ones(rt: HostRuntime) -> Result<(), Fail> {
    all_answer(rt.alloc(), &RowInShop, DECLARED)
}

#[test]
fn built_in_kinds_and_defaults(rt: HostRuntime) -> Result<(), Fail> {
    all_answer(rt.alloc(), &RowInShop, BUILT_IN)
}

const CHAIN: &str = r#"C0 => get title => public
C500 => get title => public
C0 => set title => forbidden"#;

#[test]
fn a_long_chain_is_followed(rt: HostRuntime) -> Result<(), Fail> {
    all_answer(rt.alloc(), &RowInChain, CHAIN)
}

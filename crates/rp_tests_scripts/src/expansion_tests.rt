//! Tests of scripts with f-literals and sets: what runs of them, as text, and which are refused (PEP 498).

use crate::answers::new_names;
use crate::cases::spelled_out;
use rp_base::Printed;
use rp_guard::transform;
use rp_print::source_text;
use rp_program::{ProgramFault, add_fault, read_text};
use rp_tests_cases::is_told;
use std::alloc::Global;
use std::test::Fail;

/// Asks each case. A case stands on a line, the script on the left of `=>` and on its right its text as it runs, or the
/// fault that is told.
///
/// # Errors
/// The first case that is answered otherwise, with its answer; and where memory was refused.
fn all_told(alloc: Global, cases: &str) -> Result<(), Fail> {
    for case in cases.lines() {
        is_case_told(alloc, case)?;
    }
    Ok(())
}

fn is_case_told(alloc: Global, case: &str) -> Result<(), Fail> {
    let (script, wanted) = case.split_once(" => ").unwrap_or((case, "no answer"));
    let found = told(alloc, spelled_out(alloc, script)?.as_str())?;
    let wanted = spelled_out(alloc, wanted)?;
    is_told(alloc, case, found.as_str().trim_end(), wanted.as_str())
}

/// The text of a script as it runs, or the fault that is told.
fn told(alloc: Global, script: &str) -> Result<String, Fail> {
    let mut names = new_names(alloc)?;
    match read_text(alloc, script, &mut names) {
        Ok(tree) => Ok(source_text(alloc, &transform(tree)?, &names)?),
        Err(fault) => fault_told(alloc, fault),
    }
}

fn fault_told(alloc: Global, fault: ProgramFault) -> Result<String, Fail> {
    let mut text = Printed::new(alloc);
    add_fault(alloc, &mut text, fault)?;
    Ok(String::from_str(alloc, text.as_str())?)
}

const F_LITERALS_ARE_WRITTEN_OUT: &str =
    r#"print(f'a{x}b') => print(_getattr_('', 'join')(['a', str(x), 'b']))
y = f'' => y = _getattr_('', 'join')([])
y = f'{{}}' => y = _getattr_('', 'join')(['{}'])
y = f"{a}{b}" => y = _getattr_('', 'join')([str(a), str(b)])
y = f'{ a, b }' => y = _getattr_('', 'join')([str((a, b))])
y = f'{o.a}c' => y = _getattr_('', 'join')([str(_getattr_(o, 'a')), 'c'])
y = f'{f(*a)}' => y = _getattr_('', 'join')([str(_apply_(f, *a))])
y = f'{"a"}{0x10}' => y = _getattr_('', 'join')([str('a'), str(16)])
y = f'''a␊{b}''' => y = _getattr_('', 'join')(['a\n', str(b)])
y = f'{lambda: 1}' => y = _getattr_('', 'join')([str(lambda: 1)])
y = f'{x}' + 'z' => y = _getattr_('', 'join')([str(x)]) + 'z'
f = 1; y = f => f = 1␊y = f
y = f('a') => y = f('a')"#;

#[test]
fn f_literals_are_written_out(rt: HostRuntime) -> Result<(), Fail> {
    all_told(rt.alloc(), F_LITERALS_ARE_WRITTEN_OUT)
}

const SETS_ARE_DICTS: &str = r#"y = x in {1, 2} => y = x in {1: None, 2: None}
y = x in {1, 2,} => y = x in {1: None, 2: None}
y = (x not in {a}) and z => y = (x not in {a: None}) and z
y = x in {1} or x in {2} => y = (x in {1: None}) or (x in {2: None})
for i in {3, a}: pass => for i in _getiter_({3: None, a: None}):␊    pass
y = [i for i in {1, (2, 3)}] => y = [i for i in _getiter_({1: None, (2, 3): None})]
y = x in {a for a in b} => y = x in {a: None for a in _getiter_(b)}
y = x in {a for a in b if a in {1}} => y = x in {a: None for a in _getiter_(b) if (a in {1: None})}
y = x in {'a', f'{b}'} => y = x in {'a': None, _getattr_('', 'join')([str(b)]): None}
if x in {1}: pass => if x in {1: None}:␊    pass
print((x in {1}), 2) => print(x in {1: None}, 2)
y = x in {} => y = x in {}
y = x in {1: 2} => y = x in {1: 2}"#;

#[test]
fn sets_are_dicts(rt: HostRuntime) -> Result<(), Fail> {
    all_told(rt.alloc(), SETS_ARE_DICTS)
}

/// A `}` or `{` alone, an expression that is blank or has no tokens, closes what it didn't open, or has a `{` or `#`.
/// It is told before the grammar, and behind the faults of tokens.
const WRONG_F_LITERALS_ARE_REFUSED: &str = r#"print(f'{}') => line 1: format
pass␊y = f'}' => line 2: format
y = f'{' => line 1: format
y = f'{ }' => line 1: format
y = f'{a#b}' => line 1: format
y = f'{x!r}' => line 1: format
y = f'{a)}' => line 1: format
y = f'{x in {1}}' => line 1: format
y = f'\x7b' => line 1: format
y = (f'a',␊f'{') => line 2: format
x = = f'{}' => line 1: format
y = f'{}'␊␉x => line 2: tab in indentation"#;

#[test]
fn wrong_f_literals_are_refused(rt: HostRuntime) -> Result<(), Fail> {
    all_told(rt.alloc(), WRONG_F_LITERALS_ARE_REFUSED)
}

const OTHER_FORMS_ARE_REFUSED: &str = r#"x = 'a' f'b' => line 1: syntax
y = f 'a' => line 1: syntax
y = F'a' => line 1: syntax
y = r'a' => line 1: syntax
y = f'{x:3}' => line 1: syntax
y = f'{(]}' => line 1: syntax
y = f'{x = 1}' => line 1: syntax
x = {1} => line 1: syntax
print(x in {1}, 2) => line 1: syntax
y = x in {a, b: 1} => line 1: syntax
y = z in {x in {1}, 2} => line 1: syntax
pass␊y = x in {1} + z => line 2: syntax"#;

#[test]
fn other_forms_are_refused(rt: HostRuntime) -> Result<(), Fail> {
    all_told(rt.alloc(), OTHER_FORMS_ARE_REFUSED)
}

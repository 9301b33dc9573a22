//! Modules of declared objects: what they make of these, what scripts see of that, and why there is no world.

use crate::ran::{Outcome, outcome_over};
use rp_base::{Memory, Raised};
use rp_session::NoWorld;
use rp_tests_cases::{Question, all_answer, number, part};
use rp_tests_stage::{Code, Setting, Unset, read};
use std::alloc::Global;
use std::test::Fail;

/// More steps and cells than the scripts of tables take.
const AMPLE: u64 = 1_000_000;

/// Declarations that expose these names and have this module.
fn declarations(alloc: Global, expose: &str, module: &str) -> Result<String, Memory> {
    Ok(format!(in alloc;
        r#"version = 1
permissions = ["demo.Edit"]
expose = [{expose}]
module = """
{module}
"""

[class.Order.get]
buyer = "zope.Public"
lines = "zope.Public"
total = "zope.Public"
report = "zope.Public"

[class.Person.get]
name = "zope.Public"

[principal.eve]

[object.ann]
class = "Person"
fields = {{ name = "Ann" }}

[object.o1]
class = "Order"
fields = {{ total = 3 }}

[object.o2]
class = "Order"
fields = {{ total = 4 }}
"#
    )?)
}

/// What a script comes to for eve over some declarations, and the trail; or why there is no world.
pub fn told_over(alloc: Global, setting: Setting<'_>, script: &str) -> Result<String, Fail> {
    match read(alloc, setting, script)? {
        Ok(reading) => told_of(alloc, outcome_over(alloc, setting, reading)?),
        Err(Unset::NoWorld(cause)) => cause_of(alloc, &cause),
        Err(Unset::Refused) => Ok(String::from_str(alloc, "refused")?),
    }
}

fn told_of(alloc: Global, outcome: Option<Outcome>) -> Result<String, Fail> {
    let Some(outcome) = outcome else {
        return Ok(String::from_str(alloc, "does not run")?);
    };
    let told = outcome.told;
    let trail = outcome.trail;
    Ok(format!(in alloc; "{told}\n{trail}")?)
}

/// Why there is no world.
fn cause_of(alloc: Global, cause: &NoWorld) -> Result<String, Fail> {
    match cause {
        NoWorld::Raised(raised) => exception(alloc, raised),
        NoWorld::StopSteps => Ok(String::from_str(alloc, "no step")?),
        NoWorld::StopCells => Ok(String::from_str(alloc, "no cell")?),
        NoWorld::Unbound(name) => {
            let name = name.as_str();
            Ok(format!(in alloc; "unbound {name}")?)
        }
        NoWorld::TooLong => Ok(String::from_str(alloc, "too long")?),
        NoWorld::Memory => Err(Fail::new("memory was refused")),
    }
}

fn exception(alloc: Global, raised: &Raised) -> Result<String, Fail> {
    let kind = raised.kind.as_str();
    let text = raised.text.as_str();
    if text.is_empty() {
        return Ok(format!(in alloc; "raised {kind}")?);
    }
    Ok(format!(in alloc; "raised {kind}: {text}")?)
}

/// What the script that is the last part comes to over declarations that expose the names of the first and have the
/// module of the second.
struct Over;

impl Question for Over {
    fn answer(&self, alloc: Global, parts: &[String]) -> Result<String, Fail> {
        let declarations = declarations(alloc, part(parts, 0), part(parts, 1))?;
        let setting = Setting {
            declarations: declarations.as_str(),
            who: "eve",
            code: Code::Script,
            steps: AMPLE,
            cells: AMPLE,
        };
        told_over(alloc, setting, part(parts, 2))
    }
}

/// The same with as many steps and cells for the script as the first two parts say, over declarations that expose no
/// name.
struct Within;

impl Question for Within {
    fn answer(&self, alloc: Global, parts: &[String]) -> Result<String, Fail> {
        let declarations = declarations(alloc, "", part(parts, 2))?;
        let setting = Setting {
            declarations: declarations.as_str(),
            who: "eve",
            code: Code::Script,
            steps: number(parts, 0) as u64,
            cells: number(parts, 1) as u64,
        };
        told_over(alloc, setting, part(parts, 3))
    }
}

/// What the module exposes and does, the script, and what comes of it.
const MADE: &str = r#""o1" => o1.buyer = ann => print(o1.buyer.name) \
    => Ann~well~1 1 eve allow get Order.buyer zope.Public~2 1 eve allow get Person.name zope.Public~
"o1" => o1.total += o2.total => print(o1.total) => 7~well~1 1 eve allow get Order.total zope.Public~
"o1" => n = 0~for i in range(5):~    n += i~o1.total = n \
    => print(o1.total) => 10~well~1 1 eve allow get Order.total zope.Public~
"o1" => del o1.total => print(o1.total) => AttributeError: total~1 1 eve allow get Order.total zope.Public~
"o1" => o1.lines = [1, 2] => print(len(o1.lines)) \
    => 2~well~1 1 eve allow get Order.lines zope.Public~2 1 eve allow get list.__len__ zope.Public~
"o1" =>  => print(o1.total) => 3~well~1 1 eve allow get Order.total zope.Public~
"o1" => class Order:~    def __getitem__(self, i):~        return i * self.total~    def __len__(self):~\
            return self.total~o1.total = o1[7] + len(o1) => print(o1.total) => 24~well~\
    1 1 eve allow get Order.total zope.Public~
"o1" => class Order:~    def __contains__(self, n):~        return n == self.total~\
    o1.lines = [3 in o1, 4 in o1, 4 not in o1, 4 in o2] => print(o1.lines) => [True, False, True, True]~well~\
    1 1 eve allow get Order.lines zope.Public~2 1 eve allow get list.__str__ default~
"o1" => class Order:~    def __setitem__(self, k, v):~        setattr(self, k, v)~    def __delitem__(self, k):~\
            setattr(self, k, 'none')~o1['buyer'] = 'kim'~del o1['total'] => print(o1.buyer, o1.total) => kim none~\
    well~1 1 eve allow get Order.buyer zope.Public~2 1 eve allow get Order.total zope.Public~
"o1" => class Order:~    def __getitem__(self, k):~        return getattr(self, k)~\
        def __setitem__(self, k, v):~        setattr(self, k, v)~\
    o1['total'] += o2['total'] * 2 => print(o1.total) => 11~well~1 1 eve allow get Order.total zope.Public~
"o1" => o1.buyer = getattr(o1, 'hidden', ann)~o1.total = getattr('a-b-c', 'split')('-') \
    => print(o1.buyer.name, len(o1.total)) => Ann 3~well~1 1 eve allow get Order.buyer zope.Public~\
    2 1 eve allow get Person.name zope.Public~3 1 eve allow get Order.total zope.Public~\
    4 1 eve allow get list.__len__ zope.Public~
"o1" => class Order:~    def __call__(self, n, k=1):~        return self.total + n * k~\
    o1.total = o1(2, k=5) + o2(1) => print(o1.total) => 18~well~1 1 eve allow get Order.total zope.Public~"#;

const EXPOSED: &str = r#""rows" => rows = [1, 2] => print(len(rows)) \
    => 2~well~1 1 eve allow get list.__len__ zope.Public~
"rows" => rows = [1, 2] => rows.append(3) => ForbiddenAttribute: append~1 1 eve forbid get list.append~
"n" => n = 1~n = 2 ** 10 => print(n + 1) => 1025~well~
"o1" => o1 = 7 => print(o1) => 7~well~
"one", "two" => one = o2~two = o1 => print(one.total, two.total) \
    => 4 3~well~1 1 eve allow get Order.total zope.Public~2 1 eve allow get Order.total zope.Public~
"Order", "n" => n = 1 => n = n + 1~print(n) => 2~well~
"n" => n = 1 => del n => NameError: n~
"o1" => secret = 5 => print(secret) => NameError: secret~
"o1" => print('hidden') => print('shown') => shown~well~"#;

/// Class statements, of which those that stand in no function replace the methods of declared classes; and functions.
const DEFINED: &str =
    r#""o1" => class Order:~    def report(self):~        return self.total + 1 => print(o1.report()) \
    => 4~well~1 1 eve allow get Order.report zope.Public~2 1 eve allow get method.__call__ zope.Public~
"o1" => class Order:~    def report(self):~        return 1~class Order:~    def report(self):~        return 2 \
    => print(o1.report()) \
    => 2~well~1 1 eve allow get Order.report zope.Public~2 1 eve allow get method.__call__ zope.Public~
"o1" => def f():~    class Order:~        def report(self):~            return 1~    return Order~x = f() \
    => o1.report() => AttributeError: report~1 1 eve allow get Order.report zope.Public~
"double" => def double(x):~    return x * 2 => print(double(4)) \
    => 8~well~1 1 eve allow get function.__call__ zope.Public~
"Box" => class Box:~    def __init__(self, n):~        self.n = n => Box(3) \
    => ForbiddenAttribute: __call__~1 1 eve forbid get class.__call__~
"b" => class Box:~    def __init__(self, n):~        self.n = n~b = Box(3) => print(b.n) \
    => ForbiddenAttribute: n~1 1 eve forbid get instance.n~"#;

/// What trusted code is handed by a script, and what it hands back.
const LENT: &str = r#""o1" => class Order:~    def report(self, xs):~        xs.append(self) \
    => xs = []~o1.report(xs)~print(xs[0].total)~print(xs[0].hidden) \
    => 3~ForbiddenAttribute: hidden~1 1 eve allow get Order.report zope.Public~\
    2 1 eve allow get method.__call__ zope.Public~3 1 eve allow get Order.total zope.Public~\
    4 1 eve forbid get Order.hidden~
"o1" => class Order:~    def report(self, f):~        return f(self) => o1.report(lambda o: o.hidden) \
    => ForbiddenAttribute: hidden~1 1 eve allow get Order.report zope.Public~\
    2 1 eve allow get method.__call__ zope.Public~3 1 eve forbid get Order.hidden~
"o1" => class Order:~    def report(self, other):~        return other.total => print(o1.report(o1)) \
    => 3~well~1 1 eve allow get Order.report zope.Public~2 1 eve allow get method.__call__ zope.Public~\
    3 1 eve allow get Order.total zope.Public~
"o1" => class Order:~    def report(self, other):~        return removeSecurityProxy(other).total \
    => print(o1.report(o1)) \
    => 3~well~1 1 eve allow get Order.report zope.Public~2 1 eve allow get method.__call__ zope.Public~
"read", "o1" => def read(o, word, *default):~    return getattr(o, word, *default) \
    => print(read(o1, 'total'), read(o1, 'hidden', 'none'))~hidden = 'hidden'~read(o1, hidden) \
    => 3 none~\
    ForbiddenAttribute: hidden~1 1 eve allow get function.__call__ zope.Public~\
    2 1 eve allow get Order.total zope.Public~3 1 eve allow get function.__call__ zope.Public~\
    4 1 eve forbid get Order.hidden~5 1 eve allow get function.__call__ zope.Public~6 1 eve forbid get Order.hidden~
"write", "o1" => def write(o, word, v):~    setattr(o, word, v) => xs = [o1]~\
    write(xs[0], 'total', 5) => ForbiddenAttribute: total~1 1 eve allow get function.__call__ zope.Public~\
    2 1 eve forbid set Order.total~
"o1" => class Order:~    def report(self, word):~        return getattr(self, word, 'none') \
    => print(o1.report('total'), o1.report('hidden'))~o1.report('_total') => 3 none~ForbiddenAttribute: _total~\
    1 1 eve allow get Order.report zope.Public~2 1 eve allow get method.__call__ zope.Public~\
    3 1 eve allow get Order.report zope.Public~4 1 eve allow get method.__call__ zope.Public~\
    5 1 eve allow get Order.report zope.Public~6 1 eve allow get method.__call__ zope.Public~
"o1" => class Order:~    def report(self, other):~        return getattr(removeSecurityProxy(other), 'total') + \
    other.total => print(o1.report(o1)) => 6~well~1 1 eve allow get Order.report zope.Public~\
    2 1 eve allow get method.__call__ zope.Public~3 1 eve allow get Order.total zope.Public~"#;

const NO_WORLD: &str = r#""zeta", "o1", "alpha" => pass => pass => unbound alpha
"zeta", "o1", "alpha" => alpha = 1 => pass => unbound zeta
"alpha" => alpha = 1~del alpha => pass => unbound alpha
"o2" => del o2 => pass => unbound o2
"beta" =>  => pass => unbound beta
"alpha" => 1 // 0 => pass => raised ZeroDivisionError: zero
"o1" => print(nothing) => pass => raised NameError: nothing
"o1" => raise ValueError => pass => raised ValueError
"o1" => while 1:~    pass => pass => no step
"o1" => x = 'ab'~while 1:~    x = x + x => pass => no cell
"o1" => xs = range(1000000) => pass => no cell
"o1" => x = => pass => refused
"alpha" => alpha = getattr(o1, 'hidden') => pass => raised AttributeError: hidden
"alpha" => alpha = getattr(o1, '_total', 5) => pass => raised ForbiddenAttribute: _total
"alpha" => alpha = o1[0] => pass => raised TypeError: item
"alpha" => class Order:~    def __len__(self):~        return len(self)~\
    alpha = len(o1) => pass => raised RecursionError: calls"#;

/// The steps and cells of the script, the module, the script, and what comes of it.
const LIMITS: &str = r#"2 => 0 => for i in range(1000):~    pass => x = 1 => well~
1 => 0 => for i in range(1000):~    pass => x = 1 => no step~
1000 => 11 => xs = range(5000) => ys = range(10) => well~
1000 => 10 => xs = range(5000) => ys = range(10) => no cell~
1000 => 0 =>  => pass => well~"#;

#[test]
fn modules_change_objects(rt: HostRuntime) -> Result<(), Fail> {
    all_answer(rt.alloc(), &Over, MADE)
}

#[test]
fn modules_define_classes_and_functions(rt: HostRuntime) -> Result<(), Fail> {
    all_answer(rt.alloc(), &Over, DEFINED)
}

#[test]
fn trusted_code_keeps_what_it_is_lent(rt: HostRuntime) -> Result<(), Fail> {
    all_answer(rt.alloc(), &Over, LENT)
}

#[test]
fn modules_bind_exposed_names(rt: HostRuntime) -> Result<(), Fail> {
    all_answer(rt.alloc(), &Over, EXPOSED)
}

#[test]
fn causes_are_told(rt: HostRuntime) -> Result<(), Fail> {
    all_answer(rt.alloc(), &Over, NO_WORLD)
}

#[test]
fn steps_and_cells_are_counted_anew(rt: HostRuntime) -> Result<(), Fail> {
    all_answer(rt.alloc(), &Within, LIMITS)
}

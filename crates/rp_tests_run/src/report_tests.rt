//! A report of a script over a shop whose trusted module computes: what it says, also where it is stopped.

use crate::program_answers::{is_said, said_over};
use rp_tests_cases::{holds, is_told};
use std::alloc::Global;
use std::test::Fail;

pub const SHOP: &str = r#"version = 1
permissions = ["zope.View", "shop.Margin"]
expose = ["site", "fmt"]
module = """
class Folder:
    def __len__(self):
        return len(self.items)
    def __getitem__(self, i):
        return self.items[i]
class Member:
    def name(self):
        return self.first + ' ' + self.last
class Order:
    def total(self):
        t = 0
        for line in self.lines:
            t += line.price * line.count
        return t
def fmt(cents):
    s = str(cents % 100)
    if len(s) == 1:
        s = '0' + s
    return str(cents // 100) + '.' + s
o1.buyer, o2.buyer, o3.buyer = ann, bo, ann
o1.lines, o2.lines, o3.lines = [i1, i2], [i2], [i1]
orders.items = [o1, o2, o3]
site.orders = orders
"""
class.Site.get = { title = "zope.View", orders = "zope.View" }
class.Folder.get = { __len__ = "zope.View", __getitem__ = "zope.View" }
class.Archive.like = "Folder"
class.Order.get = { total = "zope.View", buyer = "zope.View", margin = "shop.Margin" }
class.Member.get = { name = "zope.View" }
class.Item.get = { price = "shop.Margin" }
principal.pat.allow = ["zope.View"]
object.site = { class = "Site", fields = { title = "Shop" } }
object.orders = { class = "Folder" }
object.ann = { class = "Member", fields = { first = "Ann", last = "Lee" } }
object.bo = { class = "Member", fields = { first = "Bo", last = "Ray" } }
object.i1 = { class = "Item", fields = { price = 250, count = 2 } }
object.i2 = { class = "Item", fields = { price = 1999, count = 1 } }
object.o1 = { class = "Order", fields = { margin = 12 } }
object.o2 = { class = "Order" }
object.o3 = { class = "Order" }
"#;

pub const REPORT: &str = r#"# totals per buyer
rows = []
grand = 0
for i in range(len(site.orders)):
    o = site.orders[i]
    total = o.total()
    rows.append((o.buyer.name(), total))
    grand += total
by = {}
for who, total in rows:
    by[who] = by.get(who, 0) + total
print(site.title)
for who in sorted(by):
    print(who, fmt(by[who]))
print('all', fmt(grand), 'in', len(rows), 'orders')
try:
    print(site.orders[0].margin)
except Unauthorized as e:
    print('hidden:', e)
"#;

const SAID: &str = "session 1 pat
Shop
Ann Lee 29.99
Bo Ray 19.99
all 49.98 in 3 orders
hidden: shop.Margin
end ok
0";

const LOGGED: &str = "session 1 pat
Shop
Ann Lee 29.99
Bo Ray 19.99
all 49.98 in 3 orders
hidden: shop.Margin
end ok
trail 30
1 1 pat allow get Site.orders zope.View
2 1 pat allow get Folder.__len__ zope.View
3 1 pat allow get Site.orders zope.View
4 1 pat allow get Folder.__getitem__ zope.View
5 1 pat allow get Order.total zope.View
6 1 pat allow get method.__call__ zope.Public
7 1 pat allow get Order.buyer zope.View
8 1 pat allow get Member.name zope.View
9 1 pat allow get method.__call__ zope.Public
10 1 pat allow get Site.orders zope.View
11 1 pat allow get Folder.__getitem__ zope.View
12 1 pat allow get Order.total zope.View
13 1 pat allow get method.__call__ zope.Public
14 1 pat allow get Order.buyer zope.View
15 1 pat allow get Member.name zope.View
16 1 pat allow get method.__call__ zope.Public
17 1 pat allow get Site.orders zope.View
18 1 pat allow get Folder.__getitem__ zope.View
19 1 pat allow get Order.total zope.View
20 1 pat allow get method.__call__ zope.Public
21 1 pat allow get Order.buyer zope.View
22 1 pat allow get Member.name zope.View
23 1 pat allow get method.__call__ zope.Public
24 1 pat allow get Site.title zope.View
25 1 pat allow get function.__call__ zope.Public
26 1 pat allow get function.__call__ zope.Public
27 1 pat allow get function.__call__ zope.Public
28 1 pat allow get Site.orders zope.View
29 1 pat allow get Folder.__getitem__ zope.View
30 1 pat deny get Order.margin shop.Margin
0";

/// The steps that the report takes.
const STEPS: u64 = 342;

/// Whether the session is stopped that may take so many steps; what it has printed is then a front of the report, and
/// else the whole.
fn is_stopped(alloc: Global, steps: u64) -> Result<bool, Fail> {
    let line = format!(in alloc; "run title.toml pat:s.py --steps {steps}")?;
    let said = said_over(alloc, line.as_str(), SHOP, REPORT.as_bytes())?;
    match said.as_str().strip_suffix("end stopped steps\n5") {
        Some(front) => {
            holds(SAID.get(..front.len()) == Some(front), steps)?;
            Ok(true)
        }
        None => {
            is_told(alloc, line.as_str(), said.as_str(), SAID)?;
            Ok(false)
        }
    }
}

#[test]
fn a_report_says_what_its_principal_may_know(rt: HostRuntime) -> Result<(), Fail> {
    is_said(
        rt.alloc(),
        "run title.toml pat:s.py",
        SHOP,
        REPORT.as_bytes(),
        SAID,
    )
}

#[test]
fn a_trail_tells_each_decision_of_a_report(rt: HostRuntime) -> Result<(), Fail> {
    is_said(
        rt.alloc(),
        "run title.toml pat:s.py --trail",
        SHOP,
        REPORT.as_bytes(),
        LOGGED,
    )
}

#[test]
fn a_report_that_is_stopped_has_printed_a_front_of_it(rt: HostRuntime) -> Result<(), Fail> {
    for steps in 0..STEPS {
        holds(is_stopped(rt.alloc(), steps)?, steps)?;
    }
    holds(!is_stopped(rt.alloc(), STEPS)?, STEPS)
}

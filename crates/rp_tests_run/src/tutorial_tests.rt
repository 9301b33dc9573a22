//! The examples of the tutorial: what each of its commands says, over the files that it shows.

use crate::program_answers::{AMPLE, status_of, told};
use crate::several_tests::add_file;
use rp_base::{MemFiles, MemSink, Memory, Text};
use rp_tests_cases::{Question, all_answer, part};
use std::alloc::Global;
use std::test::Fail;

/// What is said to the words of the first part, over the files of the tutorial.
struct Tutorial;

impl Question for Tutorial {
    fn answer(&self, alloc: Global, parts: &[String]) -> Result<String, Fail> {
        let mut files = MemFiles::new(files(alloc)?, AMPLE, Vec::new(alloc));
        let mut out = MemSink::new(alloc, AMPLE, AMPLE, Vec::new(alloc))?;
        let status = status_of(alloc, part(parts, 0), &mut files, &mut out)?;
        told(alloc, &out, status)
    }
}

/// The files of the tutorial.
fn files(alloc: Global) -> Result<Vec<(Text, Vec<u8>)>, Memory> {
    let mut list = Vec::new(alloc);
    for file in FILES.split(">> ") {
        if let Some((path, text)) = file.split_once('\n') {
            add_file(alloc, &mut list, path, text)?;
        }
    }
    Ok(list)
}

/// The text of each file stands behind a line with its path.
const FILES: &str = r#">> first.toml
version = 1
permissions = []
[principal.ann]
>> first.py
words = ["saw", "nail", "glue"]
total = 0
for word in words:
    total = total + len(word)
print(total, words[0:2])
>> hidden.py
words = [1, 2]
print(words.__class__)
exec("words")
>> examples/portal.toml
version = 2
permissions = ["portal.View", "portal.Edit"]
expose = ["home", "news"]

[class.Page]
get = { title = "portal.View", tags = "portal.View", visits = "zope.Public" }
set = { title = "portal.Edit", visits = "zope.Public" }

[role.reader]
permissions = ["portal.View"]
[role.editor]
permissions = ["portal.View", "portal.Edit"]

[principal.ann]
roles = ["editor"]
[principal.bob]
roles = ["reader"]

[object.home]
class = "Page"
fields = { title = "Home", visits = 12, tags = ["start"] }
[object.news]
class = "Page"
fields = { title = "News", visits = 3, tags = ["daily", "short"] }
>> examples/visit.py
news.visits = news.visits + 1
print(news.visits, home.title)
news.title = "Old news"
>> owner.py
print(home.owner)
>> examples/overview.py
def line(page, width=8):
    """The title of a page, filled up to so many characters, and how often it was visited."""
    text = page.title
    while len(text) < width:
        text += ' '
    return f'{text}{page.visits}'

def renamed(page, title):
    """What came of giving a page a title."""
    try:
        page.title = title
    except Unauthorized as refused:
        return f'{page.title}: not without {refused}'
    return f'{page.title}: done'

for page in (home, news):
    print(line(page))
print(renamed(news, 'Old news'))
>> digest.py
class Digest:
    """Pages with one of some tags."""
    def __init__(self, title, *tags):
        self.title = title
        self.tags = tags
    def takes(self, page):
        return len([tag for tag in self.tags if tag in page.tags]) > 0
    def lines(self, pages, mark='-'):
        return [f'{mark} {page.title}' for page in pages if self.takes(page)]

digest = Digest('Today', *['daily', 'new'])
print(digest.title, digest.lines([home, news], mark='*'))
print({page.title: page.visits for page in (home, news)})
>> examples/rename.py
home.title = "Welcome"
for tag in news.tags:
    print(tag)
print(home.title)
>> examples/shop.toml
version = 2
permissions = ["shop.View", "shop.Cost"]
expose = ["catalogue", "orders", "euros"]
module = """
class Catalogue:
    def __len__(self):
        return len(self.articles)
    def __getitem__(self, name):
        return self.articles[name]
    def names(self):
        return sorted(self.articles)

class Article:
    def margin(self):
        return self.price - self.cost

class Order:
    def total(self):
        return sum([article.price * count for article, count in self.lines])

def euros(cents):
    rest = str(cents % 100)
    if len(rest) == 1:
        rest = '0' + rest
    return str(cents // 100) + '.' + rest

catalogue.articles = {'saw': saw, 'nails': nails, 'glue': glue}
one.lines = [(saw, 2), (nails, 10)]
two.lines = [(nails, 4), (glue, 1)]
three.lines = [(saw, 1)]
orders = [one, two, three]
"""

[class.Catalogue.get]
__len__ = "zope.Public"
__getitem__ = "shop.View"
names = "shop.View"
[class.Article.get]
price = "shop.View"
margin = "shop.Cost"
[class.Order.get]
buyer = "shop.View"
total = "shop.View"

[role.seller]
permissions = ["shop.View"]
[role.owner]
permissions = ["shop.View", "shop.Cost"]

[principal.sue]
roles = ["owner"]
[principal.tom]
roles = ["seller"]

[object.catalogue]
class = "Catalogue"
[object.saw]
class = "Article"
fields = { price = 1290, cost = 800 }
[object.nails]
class = "Article"
fields = { price = 15, cost = 4 }
[object.glue]
class = "Article"
fields = { price = 405, cost = 210 }
[object.one]
class = "Order"
fields = { buyer = "Ann Lee" }
[object.two]
class = "Order"
fields = { buyer = "Bo Ray" }
[object.three]
class = "Order"
fields = { buyer = "Ann Lee" }
>> examples/turnover.py
class Report:
    """Sums by key, in the order in which the keys came."""
    def __init__(self, title):
        self.title = title
        self.sums = {}
    def add(self, key, cents):
        self.sums[key] = self.sums.get(key, 0) + cents
    def lines(self):
        return [f'{key}: {euros(cents)}' for key, cents in self.sums.items()]

report = Report('Turnover')
for order in orders:
    report.add(order.buyer, order.total())
print(report.title, 'of', len(orders), 'orders')
for line in report.lines():
    print(line)

print('Margins of', len(catalogue), 'articles')
try:
    for name in catalogue.names():
        print(f'{name}: {euros(catalogue[name].margin())}')
except Unauthorized as refused:
    print('not without', refused)
>> examples/workflow.toml
version = 2
permissions = ["flow.View", "flow.Write", "flow.Review"]
expose = ["leaflet"]
module = """
class Document:
    def write(self, text):
        if self.state != 'draft':
            raise ValueError(f'{self.title} is no draft')
        self.text = text
    def submit(self):
        self.go('draft', 'review')
    def reject(self, why):
        self.go('review', 'draft', why)
    def accept(self):
        self.go('review', 'published')
    def go(self, before, after, *why):
        if self.state != before:
            raise ValueError(f'{self.title} is in state {self.state}')
        self.state = after
        self.history.append(', '.join((after,) + why))
"""

[class.Document.get]
title = "flow.View"
text = "flow.View"
state = "zope.Public"
history = "flow.View"
write = "flow.Write"
submit = "flow.Write"
reject = "flow.Review"
accept = "flow.Review"

[role.reader]
permissions = ["flow.View"]
[role.author]
permissions = ["flow.View", "flow.Write"]
[role.editor]
permissions = ["flow.View", "flow.Review"]

[principal.amy]
roles = ["author"]
[principal.ed]
roles = ["editor"]
[principal.rob]
roles = ["reader"]

[object.leaflet]
class = "Document"
fields = { title = "Leaflet", text = "", state = "draft", history = ["draft"] }
>> examples/draft.py
leaflet.write('Open from 9 to 5')
leaflet.submit()
leaflet.write(leaflet.text + ', on Saturdays to 1')
leaflet.submit()
>> examples/review.py
def reviewed(document, least=20):
    """What comes of a document that waits for review."""
    if document.state != 'review':
        return f'{document.title} does not wait'
    if len(document.text) < least:
        document.reject('too short')
    else:
        document.accept()
    return f'{document.title} is now {document.state}'

print(reviewed(leaflet))
print(reviewed(leaflet))
>> examples/skip.py
for step in ['submit', 'accept']:
    try:
        getattr(leaflet, step)()
    except Unauthorized as refused:
        print(step, 'needs', refused)
print(leaflet.state, leaflet.history[-1])
leaflet.state = 'published'
>> forever.py
n = 0
while True:
    n = n + 1
"#;

/// The words, and what the tutorial shows.
const COMMANDS: &str = r#"check first.py => ok~0
run first.toml ann:first.py => session 1 ann~11 ['saw', 'nail']~end ok~0
check hidden.py => line 2: attribute "__class__" is forbidden~line 3: call of "exec" is forbidden~4
may examples/portal.toml ann portal.Edit => ann yes role editor~may yes~0
may examples/portal.toml bob portal.Edit => bob no none~may no~1
run examples/portal.toml bob:examples/visit.py => session 1 bob~4 Home~end Unauthorized: portal.Edit~1
run examples/portal.toml ann:owner.py => session 1 ann~end ForbiddenAttribute: owner~1
run examples/portal.toml ann:examples/overview.py => session 1 ann~Home    12~News    3~Old news: done~end ok~0
run examples/portal.toml bob:examples/overview.py => session 1 bob~Home    12~News    3~News: not without portal.Edit\
    ~end ok~0
run examples/portal.toml bob:digest.py => session 1 bob~Today ['* News']~{'Home': 12, 'News': 3}~end ok~0
run examples/portal.toml ann:examples/rename.py bob:examples/visit.py => session 1 ann~daily~short~Welcome~end ok~ses\
    sion 2 bob~4 Welcome~end Unauthorized: portal.Edit~1
run examples/portal.toml ann:examples/rename.py bob:examples/visit.py --turns 2,2 => session 1 ann~daily~short~Welcom\
    e~end ok~session 2 bob~4 Home~end Unauthorized: portal.Edit~1
run examples/portal.toml ann:examples/rename.py bob:examples/visit.py --trail => session 1 ann~daily~short~Welcome~en\
    d ok~session 2 bob~4 Welcome~end Unauthorized: portal.Edit~trail 9~1 1 ann allow set Page.title portal.Edit~2 1 a\
    nn allow get Page.tags portal.View~3 1 ann allow get list.__iter__ zope.Public~4 1 ann allow get Page.title porta\
    l.View~5 2 bob allow get Page.visits zope.Public~6 2 bob allow set Page.visits zope.Public~7 2 bob allow get Page\
    .visits zope.Public~8 2 bob allow get Page.title portal.View~9 2 bob deny set Page.title portal.Edit~1
run examples/shop.toml sue:examples/turnover.py => session 1 sue~Turnover of 3 orders~Ann Lee: 40.20~Bo Ray: 4.65~Mar\
    gins of 3 articles~glue: 1.95~nails: 0.11~saw: 4.90~end ok~0
run examples/shop.toml tom:examples/turnover.py --trail => session 1 tom~Turnover of 3 orders~Ann Lee: 40.20~Bo Ray: \
    4.65~Margins of 3 articles~not without shop.Cost~end ok~trail 19~1 1 tom allow get list.__iter__ zope.Public~2 1 \
    tom allow get Order.buyer shop.View~3 1 tom allow get Order.total shop.View~4 1 tom allow get method.__call__ zop\
    e.Public~5 1 tom allow get Order.buyer shop.View~6 1 tom allow get Order.total shop.View~7 1 tom allow get method\
    .__call__ zope.Public~8 1 tom allow get Order.buyer shop.View~9 1 tom allow get Order.total shop.View~10 1 tom al\
    low get method.__call__ zope.Public~11 1 tom allow get list.__len__ zope.Public~12 1 tom allow get function.__cal\
    l__ zope.Public~13 1 tom allow get function.__call__ zope.Public~14 1 tom allow get Catalogue.__len__ zope.Public\
    ~15 1 tom allow get Catalogue.names shop.View~16 1 tom allow get method.__call__ zope.Public~17 1 tom allow get l\
    ist.__iter__ zope.Public~18 1 tom allow get Catalogue.__getitem__ shop.View~19 1 tom deny get Article.margin shop\
    .Cost~0
run examples/workflow.toml amy:examples/draft.py ed:examples/review.py => session 1 amy~end ValueError: Leaflet is no\
     draft~session 2 ed~Leaflet is now draft~Leaflet does not wait~end ok~1
run examples/workflow.toml amy:examples/draft.py ed:examples/review.py --turns 1,1,2,2,1,1,2 --trail => session 1 amy\
    ~end ok~session 2 ed~Leaflet is now draft~Leaflet is now published~end ok~trail 21~1 1 amy allow get Document.wri\
    te flow.Write~2 1 amy allow get method.__call__ zope.Public~3 1 amy allow get Document.submit flow.Write~4 1 amy \
    allow get method.__call__ zope.Public~5 2 ed allow get Document.state zope.Public~6 2 ed allow get Document.text \
    flow.View~7 2 ed allow get Document.reject flow.Review~8 2 ed allow get method.__call__ zope.Public~9 2 ed allow \
    get Document.title flow.View~10 2 ed allow get Document.state zope.Public~11 1 amy allow get Document.write flow.\
    Write~12 1 amy allow get Document.text flow.View~13 1 amy allow get method.__call__ zope.Public~14 1 amy allow ge\
    t Document.submit flow.Write~15 1 amy allow get method.__call__ zope.Public~16 2 ed allow get Document.state zope\
    .Public~17 2 ed allow get Document.text flow.View~18 2 ed allow get Document.accept flow.Review~19 2 ed allow get\
     method.__call__ zope.Public~20 2 ed allow get Document.title flow.View~21 2 ed allow get Document.state zope.Pub\
    lic~0
run examples/workflow.toml rob:examples/skip.py --trail => session 1 rob~submit needs flow.Write~accept needs flow.Re\
    view~draft draft~end ForbiddenAttribute: state~trail 6~1 1 rob deny get Document.submit flow.Write~2 1 rob deny g\
    et Document.accept flow.Review~3 1 rob allow get Document.state zope.Public~4 1 rob allow get Document.history fl\
    ow.View~5 1 rob allow get list.__getitem__ zope.Public~6 1 rob forbid set Document.state~1
run first.toml ann:forever.py ann:first.py --steps 1000 => session 1 ann~end stopped steps~session 2 ann~11 ['saw', '\
    nail']~end ok~5"#;

#[test]
fn the_tutorial_shows_what_is_said(rt: HostRuntime) -> Result<(), Fail> {
    all_answer(rt.alloc(), &Tutorial, COMMANDS)
}

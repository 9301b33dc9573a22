//! The words of a command line, and the command that they give.

use rp_tests_cases::{Question, all_answer, part};
use rp_words::{Command, Pair, Run, WordsFault, read_words};
use std::alloc::{AllocError, Global};
use std::test::Fail;

/// The command that words give, spelled out: its values in order, or `usage`.
struct Given;

impl Question for Given {
    fn answer(&self, alloc: Global, parts: &[String]) -> Result<String, Fail> {
        let words = word_list(alloc, part(parts, 0))?;
        match read_words(alloc, words.as_slice()) {
            Ok(command) => Ok(told(alloc, &command)?),
            Err(WordsFault::Usage) => Ok(String::from_str(alloc, "usage")?),
            Err(WordsFault::Memory) => Err(Fail::new("no memory")),
        }
    }
}

/// The words of a line, which blanks part; `''` is the empty word.
fn word_list(alloc: Global, line: &str) -> Result<Vec<String>, AllocError> {
    let mut list = Vec::new(alloc);
    for word in line.split_whitespace() {
        let word = if word == "''" { "" } else { word };
        list.push(String::from_str(alloc, word)?)?;
    }
    Ok(list)
}

fn told(alloc: Global, command: &Command) -> Result<String, AllocError> {
    match command {
        Command::Run(run) => told_run(alloc, run),
        Command::Script(question, path) => {
            let path = path.as_str();
            format!(in alloc; "{question:?} {path}")
        }
        Command::May(may) => {
            let declarations = may.declarations.as_str();
            let permission = may.permission.as_str();
            let count = may.ids.len();
            format!(in alloc; "may {declarations} {count} {permission}")
        }
        Command::Large(size) => format!(in alloc; "large {size}"),
    }
}

/// Declarations, pairs, steps, cells, turns and whether there is a trail.
fn told_run(alloc: Global, run: &Run) -> Result<String, AllocError> {
    let declarations = run.declarations.as_str();
    let mut text = format!(in alloc; "run {declarations}")?;
    for pair in run.pairs.as_slice() {
        text.push_str(told_pair(alloc, pair)?.as_str())?;
    }
    let (steps, cells, trail) = (run.steps, run.cells, run.trail);
    text.push_str(format!(in alloc; " {steps} {cells} {trail}")?.as_str())?;
    for turn in run.turns.as_slice() {
        text.push_str(format!(in alloc; " {turn}")?.as_str())?;
    }
    Ok(text)
}

/// The word of the principals, how many there are, and the path.
fn told_pair(alloc: Global, pair: &Pair) -> Result<String, AllocError> {
    let (who, count, path) = (pair.who.as_str(), pair.ids.len(), pair.path.as_str());
    format!(in alloc; " [{who} {count} {path}]")
}

const RUNS: &str = r#"run d.toml bob:s.py => run d.toml [bob 1 s.py] 1000000 1000000 false
run d.toml bob+eve:s.py => run d.toml [bob+eve 2 s.py] 1000000 1000000 false
run d.toml bob:s.py eve:t.py => run d.toml [bob 1 s.py] [eve 1 t.py] 1000000 1000000 false
run d.toml bob:s:t.py => run d.toml [bob 1 s:t.py] 1000000 1000000 false
run d.toml bob: s.py => usage
run d.toml bob::s.py => run d.toml [bob 1 :s.py] 1000000 1000000 false
run d.toml B-o_b.9:s.py => run d.toml [B-o_b.9 1 s.py] 1000000 1000000 false
run d.toml bob:s.py --steps 5 => run d.toml [bob 1 s.py] 5 1000000 false
run d.toml bob:s.py --steps=5 => run d.toml [bob 1 s.py] 5 1000000 false
run --steps 5 d.toml bob:s.py => run d.toml [bob 1 s.py] 5 1000000 false
run d.toml --steps 0 bob:s.py => run d.toml [bob 1 s.py] 0 1000000 false
run d.toml bob:s.py --steps 100000000 => run d.toml [bob 1 s.py] 100000000 1000000 false
run d.toml bob:s.py --steps 100000001 => usage
run d.toml bob:s.py --steps 000000007 => run d.toml [bob 1 s.py] 7 1000000 false
run d.toml bob:s.py --steps 0000000007 => usage
run d.toml bob:s.py --steps -1 => usage
run d.toml bob:s.py --steps +1 => usage
run d.toml bob:s.py --steps 1x => usage
run d.toml bob:s.py --steps '' => usage
run d.toml bob:s.py --steps => usage
run d.toml bob:s.py --steps 1 --steps 1 => usage
run d.toml bob:s.py --cells 8000000 => run d.toml [bob 1 s.py] 1000000 8000000 false
run d.toml bob:s.py --cells 8000001 => usage
run d.toml bob:s.py --cells 0 => run d.toml [bob 1 s.py] 1000000 0 false
run d.toml bob:s.py --cells 1e3 => usage
run d.toml bob:s.py --trail => run d.toml [bob 1 s.py] 1000000 1000000 true
run --trail d.toml bob:s.py => run d.toml [bob 1 s.py] 1000000 1000000 true
run d.toml bob:s.py --trail --trail => usage
run d.toml bob:s.py --trail=true => usage
run d.toml bob:s.py --turns 1 => run d.toml [bob 1 s.py] 1000000 1000000 false 1
run d.toml bob:s.py eve:t.py --turns 1,2,2,1 => run d.toml [bob 1 s.py] [eve 1 t.py] 1000000 1000000 false 1 2 2 1
run d.toml bob:s.py eve:t.py --turns 02,1 => run d.toml [bob 1 s.py] [eve 1 t.py] 1000000 1000000 false 2 1
run d.toml bob:s.py --turns 2 => usage
run d.toml bob:s.py --turns 0 => usage
run d.toml bob:s.py --turns '' => usage
run d.toml bob:s.py --turns 1, => usage
run d.toml bob:s.py --turns ,1 => usage
run d.toml bob:s.py --turns 1,,1 => usage
run d.toml bob:s.py --turns 001 => usage
run d.toml bob:s.py --turns 1;1 => usage
run d.toml bob:s.py --trail --cells 7 --turns 1,1 --steps 9 => run d.toml [bob 1 s.py] 9 7 true 1 1
run d.toml => usage
run => usage
run d.toml bob => usage
run d.toml :s.py => usage
run d.toml bob+:s.py => usage
run d.toml +bob:s.py => usage
run d.toml bob++eve:s.py => usage
run d.toml bo/b:s.py => usage
run d.toml bob:s.py eve => usage
run d.toml bob:s.py -x => usage
run d.toml bob:s.py --help => usage
run d.toml bob:s.py --version => usage
run d.toml bob:s.py --trails => usage
run d.toml -b:s.py => usage
run -- d.toml bob:s.py => run d.toml [bob 1 s.py] 1000000 1000000 false
run d.toml bob:s.py -- --trail => usage
Run d.toml bob:s.py => usage"#;

const OTHERS: &str = r#"check s.py => Check s.py
check => usage
check s.py t.py => usage
check -s => usage
check - => Check -
check --help => usage
check -- -s => Check -s
show s.py => Show s.py
show => usage
shows s.py => usage
may d.toml bob zope.View => may d.toml 1 zope.View
may d.toml bob+eve+bob zope.View => may d.toml 3 zope.View
may d.toml bob => usage
may d.toml bob zope.View x => usage
may d.toml bob zope/View => usage
may d.toml bob: zope.View => usage
may d.toml '' zope.View => usage
large 1 => large 1
large 10000 => large 10000
large 00042 => large 42
large 0 => usage
large 10001 => usage
large 000042 => usage
large => usage
large x => usage
large 3 4 => usage
large -3 => usage
help => usage
--help => usage
'' => usage
 => usage"#;

const SIXTEEN: &str =
    r#"run d a:s a:s a:s a:s a:s a:s a:s a:s a:s a:s a:s a:s a:s a:s a:s a:s --turns 16 => run d [a 1 s] [a 1 s] [a 1\
     s] [a 1 s] [a 1 s] [a 1 s] [a 1 s] [a 1 s] [a 1 s] [a 1 s] [a 1 s] [a 1 s] [a 1 s] [a 1 s] [a 1 s] [a 1 s] 100000\
    0 1000000 false 16
run d a:s a:s a:s a:s a:s a:s a:s a:s a:s a:s a:s a:s a:s a:s a:s a:s a:s => usage"#;

#[test]
fn reads_the_words_of_a_run(rt: HostRuntime) -> Result<(), Fail> {
    all_answer(rt.alloc(), &Given, RUNS)
}

#[test]
fn reads_the_words_of_other_commands(rt: HostRuntime) -> Result<(), Fail> {
    all_answer(rt.alloc(), &Given, OTHERS)
}

#[test]
fn takes_sixteen_pairs_and_no_more(rt: HostRuntime) -> Result<(), Fail> {
    all_answer(rt.alloc(), &Given, SIXTEEN)
}

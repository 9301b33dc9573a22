//! Long, deep and wide scripts, which run to their ends.

use crate::program_answers::said_over;
use rp_tests_cases::{FOLDER_FILE, Question, all_answer, number, part};
use std::alloc::{AllocError, Global};
use std::test::Fail;

/// As many steps and cells as words can give.
const AMPLE: &str = "run title.toml bob:s.py --steps 100000000 --cells 8000000";

/// What is said where bob runs a script that is made of a case.
enum Wide {
    /// The second part, so often as the first says.
    Repeated,
    /// So many blocks within one another, and the second part in the innermost.
    Nested,
}

impl Question for Wide {
    fn answer(&self, alloc: Global, parts: &[String]) -> Result<String, Fail> {
        let script = self.script(alloc, number(parts, 0) as usize, part(parts, 1))?;
        said_over(alloc, AMPLE, FOLDER_FILE, script.as_bytes())
    }
}

impl Wide {
    fn script(&self, alloc: Global, times: usize, text: &str) -> Result<String, AllocError> {
        match self {
            Wide::Repeated => text.repeat(alloc, times),
            Wide::Nested => nested(alloc, times, text),
        }
    }
}

/// A line in so many blocks within one another.
fn nested(alloc: Global, blocks: usize, line: &str) -> Result<String, AllocError> {
    let mut script = String::new(alloc);
    for depth in 0..blocks {
        script.push_str(" ".repeat(alloc, depth)?.as_str())?;
        script.push_str("if 1:\n")?;
    }
    script.push_str(" ".repeat(alloc, blocks)?.as_str())?;
    script.push_str(line)?;
    Ok(script)
}

/// The first script has 4,194,300 bytes, and a script has at most 4 more.
const REPEATED: &str = r#"699050 => x = 1~ => session 1 bob~end ok~0
1 => print(len([i for i in range(100000)])) => session 1 bob~100000~end ok~0
1 => d = {}~for i in range(100000):~    d[i] = i~for i in range(100000):~    del d[i]~print(d) \
    => session 1 bob~{}~end ok~0"#;

const NESTED: &str = "198 => pass => session 1 bob~end ok~0";

#[test]
fn runs_long_deep_and_wide_scripts(rt: HostRuntime) -> Result<(), Fail> {
    all_answer(rt.alloc(), &Wide::Repeated, REPEATED)?;
    all_answer(rt.alloc(), &Wide::Nested, NESTED)
}

//! Declaration files of long chains of classes.

use std::alloc::{AllocError, Global};

/// So many classes, each like the next, and the last like another.
pub fn chain_file(alloc: Global, count: usize, last: &str) -> Result<String, AllocError> {
    let mut file = String::from_str(
        alloc,
        "version = 1\nclass.End.get.title = \"zope.Public\"\n",
    )?;
    put_chain(&mut file, count)?;
    writeln!(file, "class.C{count}.like = \"{last}\"")?;
    Ok(file)
}

fn put_chain(file: &mut String, count: usize) -> Result<(), AllocError> {
    for i in 0..count {
        let next = i + 1;
        writeln!(file, "class.C{i}.like = \"C{next}\"")?;
    }
    Ok(())
}

//! A condition that grows by one comparison at a time, asked by several executors, each under names of its own.
use outside::NoMemory;
use std::alloc::Global;

/// The variables, each over the widest bounds. An `@` stands for what an executor puts behind each name.
const NAMES: &str = "i@ n@ len@ cap@ base@ off@ lim@ a@ b@";

/// The comparisons in order, as of a loop over an array in a buffer. A query has some of the first.
const COMPARISONS: &str = "i@ >= 0
n@ >= 0
i@ < n@
n@ <= len@
len@ <= 1000000
len@ <= cap@
cap@ <= 2000000
base@ >= 0
off@ = base@ + 4*i@
off@ >= 0
off@ < lim@
lim@ <= 2147483647
lim@ >= 16
a@ >= 1
a@ <= 255
a@ + i@ <= n@ + 300
b@ = a@ + 1
b@ != 0
b@ <= 256
b@ - i@ >= -500
base@ <= 4096
cap@ - len@ >= 0
i@ != n@
n@ != 0
";

/// The session of executors with these words behind each name, of which each asks of the condition as it grows.
pub fn session(alloc: Global, suffixes: &str) -> Result<String, NoMemory> {
    let queries = growing_queries(alloc)?;
    let mut text = String::from_str(alloc, "green 1\n")?;
    for suffix in suffixes.split('|') {
        push_executor(alloc, &mut text, queries.as_str(), suffix)?;
    }
    text.push_str("end\n")?;
    Ok(text)
}

fn push_executor(
    alloc: Global,
    text: &mut String,
    queries: &str,
    suffix: &str,
) -> Result<(), NoMemory> {
    text.push_str("executor\n")?;
    text.push_str(queries.replace(alloc, '@', suffix)?.as_str())?;
    Ok(())
}

/// A query for each number of comparisons, from one on.
fn growing_queries(alloc: Global) -> Result<String, NoMemory> {
    let variables = variable_lines(alloc)?;
    let mut comparisons = String::new(alloc);
    let mut queries = String::new(alloc);
    for line in COMPARISONS.lines() {
        comparisons.push_str(line)?;
        comparisons.push_str("\n")?;
        queries.push_str(&format!(in alloc; "query\n{variables}{comparisons}")?)?;
    }
    Ok(queries)
}

fn variable_lines(alloc: Global) -> Result<String, NoMemory> {
    let mut lines = String::new(alloc);
    for name in NAMES.split(' ') {
        lines.push_str(&format!(in alloc; "var {name} -2147483648 2147483647\n")?)?;
    }
    Ok(lines)
}

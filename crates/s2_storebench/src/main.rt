//! Without a word: a worked walk of the row store. With the word `time`: nanoseconds for its calls at growing sizes, or at the size
//! that a second word is.
#![tactic(auto)]

mod bed;
mod times;
mod walk;

use anyhow::bail;
use std::env;

fn main(rt: HostRuntime) -> anyhow::Result<()> {
    let mut words = env::args(&rt)?.skip(1);
    match words.next() {
        None => walk::show(&rt),
        Some(word) if word.as_str() == "time" => match words.next() {
            None => times::show(&rt),
            Some(rows) => times::at_size(&rt, rows.as_str().parse::<u64>()?),
        },
        Some(_) => bail!("the words are none, or time and perhaps a number of rows"),
    }
}

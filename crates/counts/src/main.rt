// Compares the lister with published counts, and shows a run of calls and of a pile of sieves.
#![tactic(auto)]

mod counting;
mod published;
mod runs;

use anyhow::ensure;
use published::{SIZE, compare_all, count_agreeing};
use runs::show_run;
use std::alloc::Global;
use std::io::{BufWriter, Write};

fn main(rt: HostRuntime) -> anyhow::Result<()> {
    let mut out = BufWriter::new(rt.alloc(), rt.stdout())?;
    let all_agree = show_counts(rt.alloc(), &mut out)?;
    show_run(rt.alloc(), &mut out)?;
    out.flush()?;
    ensure!(all_agree, "a count differs from the published one");
    Ok(())
}

// Tells whether all counts agree.
fn show_counts<O: Write>(heap: Global, out: &mut O) -> anyhow::Result<bool> {
    let comparisons = compare_all(heap)?;
    let agreeing = count_agreeing(comparisons.as_slice());
    writeln!(
        out,
        "Classes of size {SIZE} that the lister lists, against the published counts"
    )?;
    for comparison in &comparisons {
        writeln!(out, "{comparison}")?;
    }
    writeln!(out, "{agreeing} of {} agree", comparisons.len())?;
    Ok(agreeing == comparisons.len())
}

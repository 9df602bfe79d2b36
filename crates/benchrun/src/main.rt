// Reads a sheet from standard input, tries it on a bench and prints the report, or says why the input is no sheet.
#![tactic(auto)]

use printing::print_trial;
use sheet::LONGEST;
use std::io;
use std::io::Read;

fn main(rt: HostRuntime) -> io::Result<()> {
    let mut input = Vec::new(rt.alloc());
    // one byte more than the longest sheet has tells a longer input from a sheet
    rt.stdin().take(LONGEST as u64 + 1).read_to_end(&mut input)?;
    print_trial(&rt, &input)
}

// Prints what a trial of an input came to, line by line.
#![tactic(auto)]

use std::io;
use trial::{AREA, trial};

// Tries the sheet in an input and prints its report, with a line for each cell that the run changed; or prints why the input is no sheet.
// Inlined always: for a caller that prints many reports the stack of a trial is then there once, and not touched anew for each.
#[inline(always)]
pub fn print_trial(rt: &impl Print, input: &[u8]) -> io::Result<()> {
    // of a fixed size: nothing is allocated, so that no trial fails for want of memory
    let mut area = [0u8; AREA];
    match trial(input, &mut area) {
        Err(malformed) => rt.println(malformed),
        Ok(report) => {
            rt.println(&report)?;
            for cell in (0..report.size()).filter_map(|address| report.changed(address)) {
                rt.println(cell)?;
            }
            Ok(())
        }
    }
}

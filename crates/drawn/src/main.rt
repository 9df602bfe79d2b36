// Reads many sheets from standard input, each after its length in four bytes, most significant first, and prints the number and the report of each. What it
// prints is compared with what the second implementation prints of the same sheets. At most 4,294,967,295 sheets are read.
#![tactic(auto)]

ghost use Rattle.std.specs.Prelude.{length};
ghost use Rattle.std.specs.Iterator.{at_most};

use printing::print_trial;
use std::io;
use std::io::Read;

// The sheets that are left of a stream. They end where the stream does, or where it breaks off.
#[derive(Drop)]
struct Sheets<'a> {
    stream: &'a [u8],
}

impl<'a> Iterator for Sheets<'a> {
    type Item = &'a [u8];

    ghost remaining = { λ s. at_most (length s.stream.now) };

    fn next(&mut self) -> Option<&'a [u8]> {
        let (length, rest) = self.stream.split_first_chunk()?;
        let (sheet, rest) = rest.split_at_checked(u32::from_be_bytes(*length) as usize)?;
        self.stream = rest;
        Some(sheet)
    }
}

fn main(rt: HostRuntime) -> io::Result<()> {
    let mut input = Vec::new(rt.alloc());
    rt.stdin().read_to_end(&mut input)?;
    let sheets = Sheets { stream: &input }.take(u32::MAX as usize);
    for (index, sheet) in sheets.enumerate() {
        println!(rt; "sheet {index}")?;
        print_trial(&rt, sheet)?;
    }
    Ok(())
}

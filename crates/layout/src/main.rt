// Reads a sheet on standard input, lays it out with the default options and writes the answer and the text
// (specification, 'The program').
#![tactic(auto)]

use std::io;

fn main(rt: HostRuntime) -> io::Result<()> {
    program::lay_out_sheet(&rt)
}

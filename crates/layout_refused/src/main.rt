// The program `layout` on a sheet with a bad line: it writes `refusal place` and their values.
#![tactic(auto)]

use std::io;

fn main(rt: HostRuntime) -> io::Result<()> {
    program::lay_out_sheet(&rt)
}

// The listing program again, whose stored run is an input of 65,537 bytes, one more than is read.
#![tactic(auto)]

use std::io;

fn main(rt: HostRuntime) -> io::Result<()> {
    list_io::list_input(&rt)?;
    Ok(())
}

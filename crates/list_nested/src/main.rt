// The listing program again, whose stored run is a reel of nested, deep and damaged chunks.
#![tactic(auto)]

use std::io;

fn main(rt: HostRuntime) -> io::Result<()> {
    list_io::list_input(&rt)?;
    Ok(())
}

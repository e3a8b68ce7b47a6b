// The listing program again, whose stored run is a reel that was cut short.
#![tactic(auto)]

use std::io;

fn main(rt: HostRuntime) -> io::Result<()> {
    list_io::list_input(&rt)?;
    Ok(())
}

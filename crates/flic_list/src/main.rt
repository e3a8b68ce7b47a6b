// The listing program: document 01, "Reels and the trailer", third paragraph. Its stored run is the example of "Numbers to try".
#![tactic(auto)]

use std::io;

fn main(rt: HostRuntime) -> io::Result<()> {
    list_io::list_input(&rt)?;
    Ok(())
}

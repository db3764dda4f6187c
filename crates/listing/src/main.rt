// Lists the layout file on standard input (document 01, "The program reads").
#![tactic(auto)]

use listing_file::list;
use std::io::{self, Read, Write};

// Reads standard input, at most one byte more than is listed, and writes its listing, for which 11,283 bytes are room enough.
fn main(rt: HostRuntime) -> io::Result<()> {
    let mut file = [0u8; 65537];
    let read = io::copy(&mut rt.stdin().take(65537), &mut &mut file[..])?;
    let n = file.len().min(read as usize);
    let mut out = [0u8; 11283];
    let m = list(&file[..n], &mut out);
    rt.stdout().write_all(&out[..m])
}

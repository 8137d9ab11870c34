// Reads an old block file, stored by row, on standard input and writes the column file of its history
// to standard output, block by block; memory does not grow with the file. A bad place gets its line
// on standard error, and ends the file: the blocks before it are written and no more.
#![tactic(auto)]

use history::BLOCK;
use streams::Ending;

// The places of a file that are looked at: no block may stand at the last.
const PLACES: u32 = history::BLOCKS as u32 + 1;

// Writes the column block of one place, or tells that it is bad, which ends the work.
fn write_place(rt: HostRuntime, place: u32, bytes: &[u8], more: bool) -> Result<bool, Ending> {
    let mut out = [0u8; BLOCK];
    match turn::turn_place(place, bytes, more, &mut out) {
        Ok(n) => {
            streams::print(rt, &out[..n])?;
            Ok(true)
        }
        Err(bad) => {
            let n = bad.written;
            let _ = rt.stderr().write_all(&out[..n]);
            Ok(false)
        }
    }
}

// Goes through the whole input, as long as its blocks are sound and no read or write fails.
fn run(rt: HostRuntime) -> Result<(), Ending> {
    streams::ready(rt)?;
    streams::each_block(rt.stdin(), PLACES, |place, bytes, more| {
        write_place(rt, place, bytes, more)
    })?;
    Ok(())
}

// Its status is 0 also where the input is bad or a write fails, so it answers no Result.
fn main(rt: HostRuntime) {
    if let Err(why) = run(rt) {
        streams::tell(rt, b"boardturn", why);
    }
}

// The program: a pattern line and records from standard input; what the pattern's table tells of each to standard output.
// All that matters is `report::answer`. One byte more than the longest input is read, so that a longer one is seen.
#![tactic(auto)]

ghost use Rattle.std.specs.Prelude.{◌≤◌, length, IfOk};

use std::io;
use std::io::{ErrorKind, Read, Write};

// Fills the buffer from its start until it is full or the reader ends; how many bytes stand in it.
fn read_full<R: Read>(reader: &mut R, buf: &mut [u8]) -> io::Result<usize>
    ensures { IfOk result (λ n. n ≤ length buf.new) }
{
    let mut at = 0;
    // A count stands for a loop without end: how often a reader gives less than is asked is not known.
    for _ in 0..u64::MAX {
        if buf.len() <= at {
            break;
        }
        match reader.read(&mut buf[at..]) {
            Ok(0) => break,
            Ok(n) => at += n,
            Err(e) => {
                if e.kind() != ErrorKind::Interrupted {
                    return Err(e);
                }
            }
        }
    }
    Ok(at)
}

fn main(rt: HostRuntime) -> io::Result<()> {
    let mut input = [0u8; 65537];
    let n = read_full(&mut rt.stdin(), &mut input)?;
    let mut out = [0u8; 4718643];
    let end = report::answer(&input[..n], &mut out);
    rt.stdout().write_all(&out[..end])
}

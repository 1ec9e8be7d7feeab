// Runs a script from standard input on a store, and answers each line as soon as it is whole.
#![tactic(auto)]

ghost use Rattle.std.specs.Prelude.{◌≡◌, List, ℕ, ◌≤◌, IfOk, length};
ghost use Rattle.feed.specs.Scripted.{Scripted, talk_of};

use feed::Session;
use std::io::{self, Print, Read};

// How often there is something to read, at most: no script comes to its end.
const READS: u64 = 9223372036854775808;

// Feeds all of a chunk to a session, and writes the answers; no more is fed where a write fails.
fn answered(
    rt: &impl Print,
    s: Session,
    memory: &mut [u32],
    line: &mut [u8],
    chunk: &[u8],
    out: &mut [u8],
) -> io::Result<Session>
    requires { (length memory.old ≡ 16448) × (length line.old ≡ 4100) × (1024 ≤ length out.old) }
    ensures { IfOk result (λ t. (o : List ℕ) × Scripted (talk_of s line.old memory.old) chunk.now o (talk_of t line.new memory.new)) }
{
    let mut t = s;
    let mut from: usize = 0;
    // No `for`: how far a chunk gets is what feed gives.
    while from < chunk.len() {
        t = feed::feed(t, memory, line, &chunk[from..], out);
        rt.write_all(&out[..t.used])?;
        from += t.at;
    }
    Ok(t)
}

// Reads what there is, and answers it, until the input ends; the newline that the last line may lack comes then. Where a read or a write fails, nothing more is fed: a line that was cut is no line.
fn session(
    rt: &impl Print,
    input: &mut impl Read,
    memory: &mut [u32],
    line: &mut [u8],
    text: &mut [u8],
    out: &mut [u8],
) -> io::Result<()>
    requires { (length memory.old ≡ 16448) × (length line.old ≡ 4100) × (1024 ≤ length out.old) }
{
    let mut s = feed::begin();
    for _ in 0..READS {
        let n = input.read(text)?;
        if n == 0 {
            break;
        }
        s = answered(rt, s, memory, line, &text[..n], out)?;
    }
    answered(rt, s, memory, line, b"\n", out)?;
    Ok(())
}

fn main(rt: HostRuntime) {
    let mut memory = [0u32; 16448];
    let mut line = [0u8; 4100];
    let mut text = [0u8; 65536];
    let mut out = [0u8; 65536];
    let mut input = rt.stdin();
    // The exit status is 0 also where a read or a write failed (README, Scripts).
    let _ = session(&rt, &mut input, &mut memory, &mut line, &mut text, &mut out);
}

// Answers the questions of standard input, one a line.
#![tactic(auto)]

ghost use Rattle.std.specs.Prelude.{◌≡◌, ℕ, ◌⊎◌, List, [], ◌∷◌, ◌++◌, ◌≢◌};

use assessment::assess;
use std::io;
use std::io::{BufRead, BufReader};

// A line without its end (byte 10), which the last line may lack.
fn without_end(line: &[u8]) -> &[u8]
    ensures { (line.now ≡ result.now ++ 10 ∷ []) ⊎ ((result.now ≡ line.now) × ((text : List ℕ) → line.now ≢ text ++ 10 ∷ [])) }
{
    match line {
        [text @ .., b'\n'] => text,
        _ => line,
    }
}

// Nothing says that an input ends, so the lines are counted.
fn main(rt: HostRuntime) -> io::Result<()> {
    let mut input = BufReader::new(rt.alloc(), rt.stdin())?;
    let mut line = Vec::new(rt.alloc());
    for number in 1..u64::MAX {
        line.clear();
        if input.read_until(b'\n', &mut line)? == 0 {
            break;
        }
        let answer = assess(without_end(&line));
        println!(rt; "{number} {answer}")?;
    }
    Ok(())
}

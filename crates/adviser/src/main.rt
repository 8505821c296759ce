// Reads a job from standard input and tells what it found: for a sound text how many lines, parts
// and moves it has, else the fault. Status 0, or 1 with a fault.

#![tactic(auto)]

ghost use Rattle.std.specs.Prelude.{◌≤◌, length, IfOk};

use anyhow::anyhow;
use job::{Account, check_text};
use std::io;
use std::io::Read;
use trees::{BLANK_ROW, PICK_LIMIT, ROW_LIMIT};

// One byte more than the longest job, so that a longer one is seen.
const ROOM: usize = 16385;

// Fills the buffer from standard input, as far as either goes. Each read is offered all the room that
// is left: an input that comes in packets would lose what a smaller buffer cuts off.
fn read_input(rt: &HostRuntime, buffer: &mut [u8]) -> io::Result<usize>
    ensures { IfOk result (λ n. n ≤ length buffer.old) }
{
    let mut input = rt.stdin();
    let mut used = 0;
    for _ in 0..ROOM {
        if used >= buffer.len() {
            break;
        }
        let got = input.read(&mut buffer[used..])?;
        if got == 0 {
            break;
        }
        used += got;
    }
    Ok(used)
}

fn print_account(rt: &HostRuntime, account: Account) -> io::Result<()> {
    let lines = account.lines;
    let parts = account.parts;
    let moves = account.moves;
    println!(rt; "lines={lines}\nparts={parts}\nmoves={moves}")
}

fn main(rt: HostRuntime) -> anyhow::Result<()> {
    let mut buffer = [0; ROOM];
    let used = read_input(&rt, &mut buffer)?;
    let mut rows = [BLANK_ROW; ROW_LIMIT];
    let mut picks = [0; PICK_LIMIT];
    match check_text(&buffer[..used], &mut rows, &mut picks) {
        Ok(account) => {
            print_account(&rt, account)?;
            Ok(())
        }
        Err(fault) => {
            println!(rt; "{fault}")?;
            Err(anyhow!("the job was refused"))
        }
    }
}

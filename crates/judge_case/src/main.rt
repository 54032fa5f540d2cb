// Judges one case from standard input on all its states, and prints which of them hold, or the refusal.
#![tactic(auto)]

mod page;

ghost use Rattle.std.specs.Prelude.{◌≡◌, ◌≤◌, length, IfOk};
ghost use Rattle.flc.specs.Sets.{has};
ghost use Rattle.case_model.specs.Case.{read};
ghost use Rattle.case_model.specs.Run.{every_start};
ghost use Rattle.judge_case.specs.Printed.{words, page, Shows};

use crate::page::{Page, refusal_page, verdict_page};
use case_file::Case;
use case_reader::{all_states, holds, start, start_count, state_count};
use std::io::{Error, Read, Write};

// Is every start state in the set?
fn starts_hold(file: &[u8], set: u16) -> bool
    ensures { result ≡ every_start (read file.now) (has set) }
{
    let count = start_count(file);
    (0..count).all(|i| holds(set, start(file, i)))
}

// What is printed of a file, judged on all its states.
fn page_of(file: &[u8], work: &mut [u16]) -> Page
    requires { length work.old ≡ words }
    ensures { Shows result (page file.now) }
{
    let states = state_count(file);
    match judge::judge(file, all_states(states), work) {
        Ok(verdict) => verdict_page(states, starts_hold(file, verdict.set), verdict),
        Err(refusal) => refusal_page(refusal),
    }
}

// Reads until the buffer is full or the input ends, and tells how many bytes came.
// A loop: `read_exact` fails where the input ends first, and `read_to_end` needs the heap.
fn read_full<R: Read>(input: &mut R, buffer: &mut [u8]) -> Result<usize, Error>
    ensures { IfOk result (λ n. n ≤ length buffer.new) }
{
    let mut done = 0;
    while done < buffer.len() {
        let count = input.read(&mut buffer[done..])?;
        if count == 0 {
            break;
        }
        done += count;
    }
    Ok(done)
}

// How many words the program lends judging.
const WORDS: usize = 32768;

fn main(rt: HostRuntime) -> Result<(), Error> {
    // The byte past the longest case tells a longer input, which is refused as 1.
    let mut buffer = [0u8; Case::LONGEST + 1];
    let mut work = [0u16; WORDS];
    let length = read_full(&mut rt.stdin(), &mut buffer)?;
    let page = page_of(&buffer[..length], &mut work);
    let bytes = page.bytes;
    let count = page.length;
    rt.stdout().write_all(&bytes[..count])
}

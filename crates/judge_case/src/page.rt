// What is printed of a file: docs/SPECIFICATION.md, section 9.
ghost use Rattle.std.specs.Prelude.{◌++◌, ◌+◌, ◌≤◌, length};
ghost use Rattle.case_file.specs.EnumNumbers.{number};
ghost use Rattle.judge.specs.EnumNumbers.{answer};
ghost use Rattle.judge_case.specs.Printed.{yes_or_no, numeral, line, verdict_lines, refusal_line, Shows, Grew, Blank};

use case_file::Refusal;
use case_reader::holds;
use judge::Verdict;

// What is to be printed: the first `length` bytes.
// Bytes, and no `Display`: the library promises what a `Display` writes only where it answers Ok, and nothing promises that it does.
// An array, and no Vec: nothing is allocated.
#[derive(Clone, Copy)]
pub(crate) struct Page {
    pub(crate) bytes: [u8; 512],
    pub(crate) length: usize,
}

impl Page {
    fn new() -> Page
        ensures { Blank result }
    {
        Page {
            bytes: [0u8; 512],
            length: 0,
        }
    }

    // The page with a text more.
    fn text(self, what: &[u8]) -> Page
        requires { self.length + length what.now ≤ 512 }
        ensures { Grew self result what.now }
    {
        let end = self.length + what.len();
        let mut bytes = self.bytes;
        bytes[self.length..end].copy_from_slice(what);
        Page { bytes, length: end }
    }

    fn number(self, n: u64) -> Page
        requires { self.length + 20 ≤ 512 }
        ensures { Grew self result (numeral n) }
    {
        let mut digits = [0u8; 20];
        let count = io::decimal(n, &mut digits);
        self.text(&digits[..count])
    }

    // A line: a text and a number.
    fn line(self, what: &[u8], n: u64) -> Page
        requires { self.length + length what.now + 21 ≤ 512 }
        ensures { Grew self result (line what.now n) }
    {
        self.text(what).number(n).text(b"\n")
    }

    // The end of a line that says whether something holds.
    fn yes_or_no(self, holds: bool) -> Page
        requires { self.length + 5 ≤ 512 }
        ensures { Grew self result (yes_or_no holds) }
    {
        if holds {
            self.text(b" yes\n")
        } else {
            self.text(b" no\n")
        }
    }

    // The line of state s.
    fn state(self, s: usize, holds: bool) -> Page
        requires { self.length + 25 ≤ 512 }
        ensures { Grew self result (numeral s ++ yes_or_no holds) }
    {
        self.number(s as u64).yes_or_no(holds)
    }
}

pub(crate) fn refusal_page(refusal: Refusal) -> Page
    ensures { Shows result (refusal_line (number refusal.reason) refusal.place) }
{
    let number = refusal.number();
    Page::new()
        .text(b"refused ")
        .number(number)
        .line(b" ", refusal.place as u64)
}

pub(crate) fn verdict_page(states: usize, starts: bool, verdict: Verdict) -> Page
    requires { states ≤ 16 }
    ensures { Shows result (verdict_lines states starts (answer verdict)) }
{
    let mut page = Page::new()
        .line(b"states ", states as u64)
        .line(b"rounds ", verdict.rounds as u64);
    for s in 0..states {
        page = page.state(s, holds(verdict.set, s));
    }
    page.text(b"starts").yes_or_no(starts)
}

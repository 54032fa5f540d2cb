// The parts of a case, read from any bytes: what stands in no section reads as 0.
ghost use Rattle.std.specs.Prelude.{◌<◌, length, get_or, ltb, cond};
ghost use Rattle.case_model.specs.Bytes.{offset, size, section};
ghost use Rattle.case_model.specs.Limits.{sections};
ghost use Rattle.case_model.specs.Case.{read, triples, at};
ghost use Rattle.case_reader.specs.Read.{Is, IsTriple};

use crate::bytes::{byte, word};

// How many sections a file has.
pub const SECTIONS: usize = 4;

// A step (from, action, to), or a node (kind, A, B). Steps are in order by the state that they leave, then the action, then the state that they enter.
#[derive(Clone, Copy, PartialEq, Eq, PartialOrd, Ord)]
pub struct Triple(pub usize, pub usize, pub usize);

// Where a section begins, and how many bytes it has, as its pair says. A section goes by its number, and not by an enum: both answer for any number.
pub fn section_offset(file: &[u8], section: usize) -> usize
    ensures { Is (cond (ltb section sections) (offset file.now section) 0) 65536 result }
{
    if section < SECTIONS {
        word(file, 4 * section)
    } else {
        0
    }
}

// Like section_offset: two names for two halves of a pair; a function with the half as a parameter is no shorter.
pub fn section_size(file: &[u8], section: usize) -> usize
    ensures { Is (cond (ltb section sections) (size file.now section) 0) 65536 result }
{
    if section < SECTIONS {
        word(file, 4 * section + 2)
    } else {
        0
    }
}

// How many whole triples a section has.
fn triple_count(file: &[u8], section: usize) -> usize
    requires { section < sections }
    ensures { Is (length (triples file.now section)) 21846 result }
{
    word(file, 4 * section + 2) / 3
}

fn triple_at(file: &[u8], section: usize, i: usize) -> Triple
    requires { section < sections }
    ensures { IsTriple result (at (triples file.now section) i) }
{
    if triple_count(file, section) <= i {
        return Triple(0, 0, 0);
    }
    let start = word(file, 4 * section) + 3 * i;
    Triple(
        byte(file, start),
        byte(file, start + 1),
        byte(file, start + 2),
    )
}

// How many bytes section k has.
fn byte_count(file: &[u8], k: usize) -> usize
    requires { k < sections }
    ensures { Is (length (section file.now k)) 65536 result }
{
    word(file, 4 * k + 2)
}

fn byte_at(file: &[u8], k: usize, i: usize) -> usize
    requires { k < sections }
    ensures { Is (get_or (section file.now k) i 0) 256 result }
{
    if byte_count(file, k) <= i {
        return 0;
    }
    byte(file, word(file, 4 * k) + i)
}

pub fn state_count(file: &[u8]) -> usize
    ensures { Is (length (read file.now).labels) 65536 result }
{
    byte_count(file, 0)
}

// The label byte of state s.
pub fn label(file: &[u8], s: usize) -> usize
    ensures { Is (get_or (read file.now).labels s 0) 256 result }
{
    byte_at(file, 0, s)
}

pub fn start_count(file: &[u8]) -> usize
    ensures { Is (length (read file.now).starts) 65536 result }
{
    byte_count(file, 3)
}

// Start state i.
pub fn start(file: &[u8], i: usize) -> usize
    ensures { Is (get_or (read file.now).starts i 0) 256 result }
{
    byte_at(file, 3, i)
}

pub fn step_count(file: &[u8]) -> usize
    ensures { Is (length (read file.now).steps) 21846 result }
{
    triple_count(file, 1)
}

pub fn step(file: &[u8], i: usize) -> Triple
    ensures { IsTriple result (at (read file.now).steps i) }
{
    triple_at(file, 1, i)
}

pub fn node_count(file: &[u8]) -> usize
    ensures { Is (length (read file.now).nodes) 21846 result }
{
    triple_count(file, 2)
}

pub fn node(file: &[u8], j: usize) -> Triple
    ensures { IsTriple result (at (read file.now).nodes j) }
{
    triple_at(file, 2, j)
}

// The root's node number.
pub fn root(file: &[u8]) -> usize
    ensures { Is (read file.now).root 256 result }
{
    byte_at(file, 2, 3 * node_count(file))
}

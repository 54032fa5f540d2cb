// The C boundary: one thin function an entry, with its reply packed into one number. include/hoidrul.h declares the same functions.
#![tactic(auto)]

ghost use Rattle.std.specs.Prelude.{◌≡◌, ◌+◌, ◌*◌, ◌^◌, ◌<◌, length};
ghost use Rattle.case_model.specs.Replies.{vetting, opening, opened_at, counted, written};
ghost use Rattle.case_model.specs.Judging.{judging, cleared};
ghost use Rattle.case_model.specs.Merging.{classing, merging};
ghost use Rattle.case_model.specs.Rewriting.{rewriting};
ghost use Rattle.case_file.specs.EnumNumbers.{number, written_reply};
ghost use Rattle.judge.specs.EnumNumbers.{judged_reply};
ghost use Rattle.judge_kinds_model.specs.Judging.{judging_kinds};
ghost use Rattle.regular_model.specs.Judging.{judging_regular};
ghost use Rattle.hoidrul.specs.Packing.{packed, counts_word, refusal_word, span_word, verdict_word, itself, Fits, Brief, Short};

use case_file::Refusal;
use judge::Verdict;

// A refusal has bit 63 set, its number from bit 32 on, and its place below that.
fn refused(refusal: Refusal) -> u64
    requires { refusal.place < 2 ^ 32 }
    ensures { result ≡ refusal_word (number refusal.reason) refusal.place }
{
    let number = refusal.number();
    9223372036854775808 + number * 4294967296 + refusal.place as u64
}

#[unsafe(no_mangle)]
pub extern "C" fn hoidrul_vet(file: &[u8], section: usize) -> u64
    ensures { result ≡ packed counts_word (vetting file.now section) }
{
    match case_file::vet(file, section) {
        Ok(counts) => (counts.states + counts.nodes * 65536) as u64,
        Err(refusal) => refused(refusal),
    }
}

// The section's place in the file: an exported function cannot return a part of a slice.
#[unsafe(no_mangle)]
pub extern "C" fn hoidrul_open(file: &[u8], section: usize) -> u64
    ensures { result ≡ span_word (opened_at file.now section) (length (opening file.now section)) }
{
    let Ok(_) = case_file::vet(file, section) else {
        return 0;
    };
    let offset = case_reader::section_offset(file, section);
    let size = case_reader::section_size(file, section);
    (offset * 4294967296 + size) as u64
}

// Like count_word and hoidrul_vet: two arms, of which a function with a closure for the first would make no fewer.
fn verdict_word(judged: Result<Verdict, Refusal>) -> u64
    requires { Fits Brief (judged_reply judged) }
    ensures { result ≡ packed verdict_word (judged_reply judged) }
{
    match judged {
        Ok(verdict) => verdict.set as u64 + verdict.rounds as u64 * 65536,
        Err(refusal) => refused(refusal),
    }
}

fn count_word(written: Result<usize, Refusal>) -> u64
    requires { Fits Short (written_reply written) }
    ensures { result ≡ packed itself (written_reply written) }
{
    match written {
        Ok(count) => count as u64,
        Err(refusal) => refused(refusal),
    }
}

#[unsafe(no_mangle)]
pub extern "C" fn hoidrul_judge(file: &[u8], set: u16, work: &mut [u16]) -> u64
    ensures value { result ≡ packed verdict_word (judging file.now set (length work.old)) }
    ensures work_after { work.new ≡ cleared (judging file.now set (length work.old)) work.old }
{
    verdict_word(judge::judge(file, set, work))
}

#[unsafe(no_mangle)]
pub extern "C" fn hoidrul_judge_kinds(kinds: &[u8], file: &[u8], set: u16, work: &mut [u16]) -> u64
    ensures value { result ≡ packed verdict_word (judging_kinds kinds.now file.now set (length work.old)) }
    ensures work_after { work.new ≡ cleared (judging_kinds kinds.now file.now set (length work.old)) work.old }
{
    verdict_word(judge_kinds::judge_kinds(kinds, file, set, work))
}

#[unsafe(no_mangle)]
pub extern "C" fn hoidrul_classes(file: &[u8], out: &mut [u8]) -> u64
    ensures value { result ≡ packed itself (counted (classing file.now (length out.old))) }
    ensures out_after { out.new ≡ written (classing file.now (length out.old)) out.old }
{
    count_word(bisim::classes(file, out))
}

#[unsafe(no_mangle)]
pub extern "C" fn hoidrul_merge(file: &[u8], s: usize, t: usize, out: &mut [u8]) -> u64
    ensures value { result ≡ packed itself (counted (merging file.now s t (length out.old))) }
    ensures out_after { out.new ≡ written (merging file.now s t (length out.old)) out.old }
{
    count_word(merging::merge(file, s, t, out))
}

#[unsafe(no_mangle)]
pub extern "C" fn hoidrul_rewrite(file: &[u8], law: usize, node: usize, out: &mut [u8]) -> u64
    ensures value { result ≡ packed itself (counted (rewriting file.now law node (length out.old))) }
    ensures out_after { out.new ≡ written (rewriting file.now law node (length out.old)) out.old }
{
    count_word(rewriting::rewrite(file, law, node, out))
}

#[unsafe(no_mangle)]
pub extern "C" fn hoidrul_regular(file: &[u8], work: &mut [u8], out: &mut [u8]) -> u64
    ensures value { result ≡ packed itself (counted (judging_regular file.now (length work.old) (length out.old))) }
    ensures out_after { out.new ≡ written (judging_regular file.now (length work.old) (length out.old)) out.old }
    ensures work_after { work.new ≡ cleared (judging_regular file.now (length work.old) (length out.old)) work.old }
{
    count_word(regular::regular(file, work, out))
}

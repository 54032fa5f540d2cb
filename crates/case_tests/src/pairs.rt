// Row 1: how long the file is, where its sections lie, and what stands between them.
ghost use Rattle.std.specs.Prelude.{◌≡◌, ◌-◌, ◌<◌};
ghost use Rattle.case_model.specs.Bytes.{end, padding, chained, pairs_hold};
ghost use Rattle.case_model.specs.Limits.{sections};
ghost use Rattle.case_reader.specs.Read.{Is};
ghost use Rattle.case_tests.specs.RowTests.{limits_of};

use crate::limits::{Limits, PADDING};
use case_reader::{SECTIONS, byte, section_offset, section_size};

// Where section k ends.
fn section_end(file: &[u8], k: usize) -> usize
    requires { k < sections }
    ensures { Is (end file.now k) 131072 result }
{
    section_offset(file, k) + section_size(file, k)
}

// Are the bytes from one section's end up to the start of the next padding?
fn padding(file: &[u8], from: usize, to: usize) -> bool
    ensures { result ≡ padding file.now from to }
{
    let gap = to.saturating_sub(from);
    let near = (from <= to) & (gap <= PADDING);
    near && (0..gap).all(|i| byte(file, from + i) == 0)
}

// Is there only padding between two sections, and does the last end with the file?
fn chained(file: &[u8]) -> bool
    ensures { result ≡ chained file.now 0 (sections - 1) }
{
    let last = SECTIONS - 1;
    (0..last).all(|k| padding(file, section_end(file, k), section_offset(file, k + 1)))
        && section_end(file, last) == file.len()
}

#[tactic(auto, unfolding(case_model::specs::Bytes::pairs_hold))]
pub fn pairs_hold(file: &[u8], limits: Limits) -> bool
    ensures { result ≡ pairs_hold (limits_of limits) file.now }
{
    let all = file.len();
    (4 * SECTIONS <= all)
        & (all <= limits.longest)
        & (section_offset(file, 0) == 4 * SECTIONS)
        & chained(file)
}

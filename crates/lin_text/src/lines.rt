//! Lines: where they begin and end, which of them are skipped, and where a place lies.
ghost use Rattle.std.specs.Prelude.{◌≡◌, ◌≤◌, ◌<◌, ◌^◌, length};
ghost use Rattle.lin_text.specs.Lines.{is_skipped, line_from, line_end, line_below, StartsLine, line_number, column};

use crate::run::{Run, bytes_from, is_feed, run_length};

/// Whether the line that begins here has blanks alone, or is a comment.
#[tactic(auto, using(crate::proofs::LineLemmas::firsts), unfolding(crate::specs::Lines::is_skipped))]
fn is_skipped(bytes: &[u8]) -> bool
    ensures { result ≡ is_skipped bytes.now }
{
    let rest = bytes_from(bytes, run_length(Run::Blanks, bytes));
    rest.is_empty() || is_feed(rest[0]) || rest[0] == b'#'
}

/// The start of the line below the one that goes through `at`, or the input's length.
pub fn line_below(bytes: &[u8], at: usize) -> usize
    requires { at ≤ length bytes.now }
    ensures start { result ≡ line_below bytes.now at }
    ensures within { result ≤ length bytes.now }
    ensures further { at < length bytes.now → at < result }
    ensures starts { StartsLine bytes.now result }
{
    let end = at + run_length(Run::Line, bytes_from(bytes, at));
    if end < bytes.len() {
        end + 1
    } else {
        bytes.len()
    }
}

/// The start of the first line from `at`, where a line begins, that isn't skipped.
pub fn first_line(bytes: &[u8], at: usize) -> usize
    requires { at ≤ length bytes.now }
    ensures start { result ≡ line_from bytes.now at }
    ensures within { result ≤ length bytes.now }
    ensures ahead { at ≤ result }
    ensures keeps { StartsLine bytes.now at → StartsLine bytes.now result }
{
    let mut start = at;
    while start < bytes.len() && is_skipped(bytes_from(bytes, start)) {
        start = line_below(bytes, start);
    }
    start
}

/// Where, from `at` on, the next line begins that isn't skipped; the input's length, where only skipped
/// lines come. Lines of blanks are skipped, and comments: lines on which a `#` stands first or behind
/// blanks. A line feed ends a line, and so does the input's end.
pub fn next_line(bytes: &[u8], at: usize) -> usize
    requires { StartsLine bytes.now at }
    ensures start { result ≡ line_from bytes.now at }
    ensures within { result ≤ length bytes.now }
    ensures starts { StartsLine bytes.now result }
{
    first_line(bytes, at)
}

/// The number of the line on which the place lies, from 1.
#[tactic(auto, using(std::proofs::lemmas::List::take_min))]
pub fn line_number(bytes: &[u8], at: usize) -> u64
    ensures { result ≡ line_number bytes.now at }
{
    1 + bytes[..at.min(bytes.len())]
        .iter()
        .filter(|byte| is_feed(**byte))
        .count() as u64
}

/// How many bytes stand on the line before the place, and 1.
#[tactic(auto, using(std::proofs::lemmas::List::take_min))]
pub fn column(bytes: &[u8], at: usize) -> u64
    ensures { result ≡ column bytes.now at }
{
    let mut column = 1;
    for byte in &bytes[..at.min(bytes.len())] {
        column = if is_feed(*byte) { 1 } else { column + 1 };
    }
    column
}

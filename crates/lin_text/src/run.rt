//! Runs of bytes of one sort.
ghost use Rattle.std.specs.Prelude.{◌≡◌, ◌≤◌, length, drop};
ghost use Rattle.std.specs.List.{prefix_len};
ghost use Rattle.lin_text.specs.Lines.{is_feed, is_blank};
ghost use Rattle.lin_text.specs.Runs.{is_in};

use lin_model::continues_name;

/// What the bytes of a run are.
#[derive(Clone, Copy)]
pub enum Run {
    /// Spaces, tabs and carriage returns.
    Blanks,
    /// What stands on one line.
    Line,
    /// What a name goes on with.
    Name,
    /// `0` to `9`.
    Digits,
}

/// Whether the byte is a line feed, which ends a line.
pub fn is_feed(byte: u8) -> bool
    ensures { result ≡ is_feed byte }
{
    byte == b'\n'
}

/// Whether the byte is a space, a tab or a carriage return.
fn is_blank(byte: u8) -> bool
    ensures { result ≡ is_blank byte }
{
    byte == b' ' || byte == b'\t' || byte == b'\r'
}

/// Whether the byte belongs to the run.
fn is_in(run: Run, byte: u8) -> bool
    ensures { result ≡ is_in run byte }
{
    match run {
        Run::Blanks => is_blank(byte),
        Run::Line => !is_feed(byte),
        Run::Name => continues_name(byte),
        Run::Digits => byte.is_ascii_digit(),
    }
}

/// How many bytes of the run stand at the front.
#[tactic(auto, using(crate::proofs::LineLemmas::runs))]
pub fn run_length(run: Run, bytes: &[u8]) -> usize
    ensures count { result ≡ prefix_len (is_in run) bytes.now }
    ensures within { result ≤ length bytes.now }
{
    for (i, byte) in bytes.iter().enumerate() {
        if !is_in(run, *byte) {
            return i;
        }
    }
    bytes.len()
}

/// The bytes from a place on.
#[tactic(auto, using(std::proofs::lemmas::List::take_rest))]
pub fn bytes_from(bytes: &[u8], at: usize) -> &[u8]
    requires { at ≤ length bytes.now }
    ensures { result.now ≡ drop at bytes.now }
{
    &bytes[at..]
}

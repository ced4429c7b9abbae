// What a line says.
ghost use Rattle.std.specs.Prelude.{◌≡◌};
ghost use Rattle.std.specs.Result.{result_transpose};
ghost use Rattle.words.specs.Hexadecimal.{octets_in};
ghost use Rattle.decode.specs.declared.outcome.Refusal.TheVariants as refusal;
ghost use Rattle.decode.specs.Outcomes.{is_comment, read_line, outcome_in};

use elements::fault::Fault;
use frames::frame::Frame;
use frames::reading::read_frame;
use thiserror::Error;
use words::hexadecimal::octets_in_line;
use words::line::BadLine;

// Why a line gives no frame: its octets have a fault, or it does not write octets.
#[derive(Clone, Copy, Debug, PartialEq, Eq, Error)]
pub enum Refusal {
    #[error(transparent)]
    Fault(Fault),
    #[error("bad line: {0}")]
    Line(BadLine),
}

impl From<Fault> for Refusal {
    ghost from_gives = { λ fault r. r ≡ refusal.Fault fault };

    fn from(fault: Fault) -> Refusal {
        Refusal::Fault(fault)
    }
}

impl From<BadLine> for Refusal {
    ghost from_gives = { λ bad r. r ≡ refusal.Line bad };

    fn from(bad: BadLine) -> Refusal {
        Refusal::Line(bad)
    }
}

// A line that begins with # is a comment.
fn is_comment(line: &[u8]) -> bool
    ensures { result ≡ is_comment line.now }
{
    matches!(line, [b'#', ..])
}

// What the line says, unless it is a comment or has nothing but blanks.
pub fn outcome_of(line: &[u8]) -> Option<Result<Frame, Refusal>>
    ensures { result ≡ outcome_in line.now }
{
    if is_comment(line) {
        return None;
    }
    frame_in_line(line).transpose()
}

fn frame_in_line(line: &[u8]) -> Result<Option<Frame>, Refusal>
    ensures { result_transpose result ≡ read_line (octets_in 128 line.now) }
{
    let octets = octets_in_line(line)?;
    if octets.as_slice().is_empty() {
        return Ok(None);
    }
    let frame = read_frame(octets.as_slice())?;
    Ok(Some(frame))
}

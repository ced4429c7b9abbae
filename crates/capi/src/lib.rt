// The frame reader and the frame writer over plain numbers. `capi_c` has them under the names that C calls.
//
// A frame is a row of fifteen numbers. One that the message lacks is 0 when a frame is read, and is not
// looked at when one is written.
//
//      0  source            the node that sends
//      1  destination       the node that receives
//      2  stamp
//      3  answers           the stamp of the frame that this one answers, 0 for none
//      4  type              the type octet of the message
//      5  digits            how many digits the IMSI has
//      6  value             the number that they write
//      7  TMSI present      1 or 0
//      8  TMSI
//      9  channel present   1 or 0
//     10  channel
//     11  code              the octet of the cause, update type, reject cause, detach type or entity
//     12  old area          five octets as one number, the high octet first
//     13  new area
//     14  class
//
// An answer from 256 on is a refusal, 256 * number + place; what the caller lent is then as it was. The
// number is a fault's, 20 to 28, or 1 where there are fewer than fifteen fields.
#![tactic(auto)]

ghost use Rattle.std.specs.Prelude.{◌≡◌, ◌<◌, IfOk, take};
ghost use Rattle.elements.specs.Faults.{and_then};
ghost use Rattle.frames.specs.Format.{frame_in};
ghost use Rattle.frames.specs.Writing.{frame_written};
ghost use Rattle.capi.specs.Rows.{fields_of};
ghost use Rattle.capi.specs.Taken.{frame_from};
ghost use Rattle.capi.specs.Replies.{refusal_of, buffer_left, read_answer, read_fields, write_answer};
ghost use Rattle.capi.specs.Replies.{write_buffer};

use crate::row::{FIELDS, Row};
use elements::fault::Fault;
use frames::frame::Frame;
use frames::reading::read_frame;
use frames::writing::write_frame;

mod from_row;
mod row;
mod to_row;

// Answers: all was read, and there are too few fields. Numbers and no `Result`, since C gets them.
const READ: u64 = 0;

const TOO_FEW_FIELDS: u64 = 256;

// A fault as an answer. Frames are short, so that no place of theirs comes near 255.
fn refusal(fault: Fault) -> u64
    ensures { result ≡ refusal_of fault }
{
    256 * fault.kind.number() as u64 + fault.place.min(255) as u64
}

// Reads the frame that these octets are into the first fifteen fields, and answers 0; or refuses.
pub fn gs_read_frame(octets: &[u8], fields: &mut [u64]) -> u64
    ensures answer { result ≡ read_answer octets.now fields.old }
    ensures row { fields.new ≡ read_fields octets.now fields.old }
{
    let Some(front) = fields.first_chunk_mut::<FIELDS>() else {
        return TOO_FEW_FIELDS;
    };
    match read_frame(octets) {
        Ok(frame) => {
            *front = Row::from(frame).fields();
            READ
        }
        Err(fault) => refusal(fault),
    }
}

// Writes the frame that the first fifteen fields say at the front of the buffer, which must have room for
// the longest frame, and answers how many octets it has; or refuses.
pub fn gs_write_frame(fields: &[u64], buffer: &mut [u8]) -> u64
    ensures answer { result ≡ write_answer fields.now buffer.old }
    ensures octets { buffer.new ≡ write_buffer fields.now buffer.old }
    ensures back { result < 256 → frame_in (take result buffer.new) ≡ frame_from fields.now }
{
    match Row::in_front(fields) {
        Some(row) => write_row(row, buffer).unwrap_or_else(refusal),
        None => TOO_FEW_FIELDS,
    }
}

fn write_row(row: Row, buffer: &mut [u8]) -> Result<u64, Fault>
    ensures value { result ≡ and_then (frame_from (fields_of row)) (λ f. frame_written f buffer.old) }
    ensures octets { buffer.new ≡ buffer_left (frame_from (fields_of row)) buffer.old }
    ensures back { IfOk result (λ n. frame_in (take n buffer.new) ≡ frame_from (fields_of row)) }
{
    let count = write_frame(Frame::try_from(row)?, buffer)?;
    Ok(count as u64)
}

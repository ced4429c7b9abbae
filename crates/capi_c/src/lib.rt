// The two functions of `capi` under the names that C calls; `capi` says what a
// row is and what the answers mean.
#![tactic(auto)]

ghost use Rattle.std.specs.Prelude.{◌≡◌, ◌<◌, take};
ghost use Rattle.frames.specs.Format.{frame_in};
ghost use Rattle.capi.specs.Taken.{frame_from};
ghost use Rattle.capi.specs.Replies.{read_answer, read_fields, write_answer, write_buffer};

#[unsafe(no_mangle)]
pub extern "C" fn gs_read_frame(octets: &[u8], fields: &mut [u64]) -> u64
    ensures answer { result ≡ read_answer octets.now fields.old }
    ensures row { fields.new ≡ read_fields octets.now fields.old }
{
    capi::gs_read_frame(octets, fields)
}

#[unsafe(no_mangle)]
pub extern "C" fn gs_write_frame(fields: &[u64], buffer: &mut [u8]) -> u64
    ensures answer { result ≡ write_answer fields.now buffer.old }
    ensures octets { buffer.new ≡ write_buffer fields.now buffer.old }
    ensures back { result < 256 → frame_in (take result buffer.new) ≡ frame_from fields.now }
{
    capi::gs_write_frame(fields, buffer)
}

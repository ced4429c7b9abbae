// The worked examples, each proved of the definitions that the code is held to.
#![tactic(auto)]

ghost use Rattle.std.specs.Prelude.{◌≡◌, length};
ghost use Rattle.examples.specs.Rows.{rows, Stand};

// How many worked examples there are; every one of them stands: an IMSI, two messages, two faults, the last
// tick on which a VLR's accept counts, the frames and the end of a detach that no VLR answers, and what a
// gate lets through.
pub fn examples_stand() -> usize
    ensures count { result ≡ length rows }
    ensures stand { Stand rows }
{
    8
}

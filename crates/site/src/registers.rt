// Calls at one VLR of several.
ghost use Rattle.std.specs.Prelude.{◌≡◌, ◌<◌, length};
ghost use Rattle.std.specs.List.{position};
ghost use Rattle.elements.specs.Nodes.{same_node};
ghost use Rattle.site.specs.Registers.{OneMakes, MadeBy};
ghost use Rattle.site.specs.Sites.{states_of};

use carrier::carrier::Carrier;
use carrier::in_order::InOrder;
use elements::node::VlrNumber;
use law::call::Answer;
use station::receiving::Refusal;
use vlr::call::{VlrAnswer, VlrCall};
use vlr::vlr::Vlr;

// Where the VLR with this number stands.
fn place_of(vlrs: &[Vlr], number: VlrNumber) -> Option<usize>
    ensures { result ≡ position (λ v. same_node v.sender.own number.node) vlrs.now }
{
    vlrs.iter().position(|vlr| vlr.sender.own == number.node)
}

// Makes the call at the VLR that stands there.
fn make_at<C: InOrder>(
    vlrs: &mut [Vlr],
    place: usize,
    carrier: &mut C,
    call: VlrCall,
) -> Result<VlrAnswer, Refusal>
    requires { place < length vlrs.old }
    ensures long { length vlrs.new ≡ length vlrs.old }
    ensures makes { OneMakes C.Carrier.takes C.Carrier.puts call result place
        (states_of vlrs.old) carrier.old (states_of vlrs.new) carrier.new }
{
    vlrs[place].make(carrier, call)
}

// Makes the call at the VLR with this number, if it is one of these.
pub(crate) fn make_by<C: InOrder>(
    vlrs: &mut [Vlr],
    number: VlrNumber,
    carrier: &mut C,
    call: VlrCall,
) -> Answer
    ensures long { length vlrs.new ≡ length vlrs.old }
    ensures made { MadeBy C.Carrier.takes C.Carrier.puts number call result
        (states_of vlrs.old) carrier.old (states_of vlrs.new) carrier.new }
{
    match place_of(vlrs, number) {
        Some(place) => Answer::Vlr(make_at(vlrs, place, carrier, call)),
        None => Answer::NoSuchNode,
    }
}

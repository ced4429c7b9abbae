// What a node is to do.
use crate::mistake::Mistake;
use crate::words_in::{
    area_in, class_in, detach_kind_in, imsi_in, node_in, number_in, request_kind_in, tmsi_in,
};
use context::kind::Request;
use elements::node::{NodeNumber, SgsnNumber, VlrNumber};
use law::call::Call;
use sgsn::call::SgsnCall;
use vlr::call::VlrCall;

// What stands in a line, whichever node it is for.
#[derive(Clone, Copy)]
pub(crate) struct Deed {
    // none, where only a VLR does that
    at_sgsn: Option<SgsnCall>,
    // or why the line is bad at a VLR
    at_vlr: Result<VlrCall, Mistake>,
    pub(crate) times: Times,
}

// How often the call is made.
#[derive(Clone, Copy)]
pub(crate) enum Times {
    Counted(u8),
    // once for each frame that waits for the node, and once where none does
    Waiting,
}

impl Deed {
    fn of_both(at_sgsn: SgsnCall, at_vlr: VlrCall, times: Times) -> Deed {
        Deed {
            at_sgsn: Some(at_sgsn),
            at_vlr: Ok(at_vlr),
            times,
        }
    }

    fn of_sgsn(call: SgsnCall) -> Deed {
        Deed {
            at_sgsn: Some(call),
            at_vlr: Err(Mistake::NotSgsn),
            times: Times::Counted(1),
        }
    }

    fn of_vlr(call: VlrCall) -> Deed {
        Deed {
            at_sgsn: None,
            at_vlr: Ok(call),
            times: Times::Counted(1),
        }
    }

    fn ticks(times: u8) -> Deed {
        Deed::of_both(SgsnCall::Tick, VlrCall::Tick, Times::Counted(times))
    }

    // The call that it is at this node, if the site's SGSN is that one. What only a VLR does is a VLR's call
    // at the SGSN too: that no VLR has this number, the site says.
    pub(crate) fn call_at(self, node: NodeNumber, sgsn: NodeNumber) -> Result<Call, Mistake> {
        match self.at_sgsn {
            Some(call) if node == sgsn => Ok(Call::Sgsn(SgsnNumber { node }, call)),
            _ => Ok(Call::Vlr(VlrNumber { node }, self.at_vlr?)),
        }
    }
}

// The first word says which deed, and the others what it is given.
pub(crate) fn deed_in(words: &[&str]) -> Result<Deed, Mistake> {
    match *words {
        ["enrol", ref rest @ ..] => enrol_in(rest).ok_or(Mistake::Enrol),
        ["attach", imsi] => {
            let imsi = imsi_in(imsi).ok_or(Mistake::OneMobile)?;
            Ok(Deed::of_sgsn(SgsnCall::Attach { imsi }))
        }
        ["request", ref rest @ ..] => request_in(rest).ok_or(Mistake::Request),
        ["detach", ref rest @ ..] => detach_in(rest).ok_or(Mistake::Detach),
        ["settle", imsi] => {
            let imsi = imsi_in(imsi).ok_or(Mistake::OneMobile)?;
            Ok(Deed::of_sgsn(SgsnCall::Settle { imsi }))
        }
        ["attach" | "settle", ..] => Err(Mistake::OneMobile),
        ["page", imsi, ref rest @ ..] => page_in(imsi, rest).ok_or(Mistake::Page),
        ["page"] => Err(Mistake::Page),
        ["lose"] => Ok(Deed::of_both(SgsnCall::Lose, VlrCall::Lose, Times::Counted(1))),
        ["lose", ..] => Err(Mistake::Lose),
        ["deliver", ref rest @ ..] => deliver_in(rest).ok_or(Mistake::Deliver),
        ["tick"] => Ok(Deed::ticks(1)),
        ["tick", count] => number_in(count).map(Deed::ticks).ok_or(Mistake::Tick),
        ["tick", ..] => Err(Mistake::Tick),
        _ => Err(Mistake::Verb),
    }
}

// The last word is a class at the SGSN, and a home cause at a VLR.
fn enrol_in(words: &[&str]) -> Option<Deed> {
    let [imsi, code] = *words else {
        return None;
    };
    let imsi = imsi_in(imsi)?;
    let class = class_in(code)?;
    let at_vlr = number_in(code).map(|home_cause| VlrCall::Enrol { imsi, home_cause });
    Some(Deed {
        at_sgsn: Some(SgsnCall::Enrol { imsi, class }),
        at_vlr: at_vlr.ok_or(Mistake::HomeCause),
        times: Times::Counted(1),
    })
}

fn request_in(words: &[&str]) -> Option<Deed> {
    let [imsi, kind, vlr, old_area, new_area] = *words else {
        return None;
    };
    let request = Request {
        kind: request_kind_in(kind)?,
        vlr: VlrNumber {
            node: node_in(vlr)?,
        },
        old_area: area_in(old_area)?,
        new_area: area_in(new_area)?,
    };
    let imsi = imsi_in(imsi)?;
    Some(Deed::of_sgsn(SgsnCall::Request { imsi, request }))
}

fn detach_in(words: &[&str]) -> Option<Deed> {
    let [imsi, kind] = *words else {
        return None;
    };
    Some(Deed::of_sgsn(SgsnCall::Detach {
        imsi: imsi_in(imsi)?,
        kind: detach_kind_in(kind)?,
    }))
}

fn page_in(imsi: &str, words: &[&str]) -> Option<Deed> {
    let (tmsi, channel) = match *words {
        [] => (None, None),
        ["tmsi", tmsi] => (Some(tmsi_in(tmsi)?), None),
        ["channel", channel] => (None, Some(number_in(channel)?)),
        ["tmsi", tmsi, "channel", channel] => (Some(tmsi_in(tmsi)?), Some(number_in(channel)?)),
        _ => return None,
    };
    Some(Deed::of_vlr(VlrCall::Page {
        imsi: imsi_in(imsi)?,
        tmsi,
        channel,
    }))
}

fn deliver_in(words: &[&str]) -> Option<Deed> {
    let times = match *words {
        [] => Times::Counted(1),
        ["all"] => Times::Waiting,
        [count] => Times::Counted(number_in(count)?),
        _ => return None,
    };
    Some(Deed::of_both(SgsnCall::Deliver, VlrCall::Deliver, times))
}

// Elements read from octets, one after another.
ghost use Rattle.std.specs.Prelude.{◌≡◌, ◌+◌, ◌/◌, ◌<◌, length, slice_get};
ghost use Rattle.std.specs.Prelude.{MatchOption, IfSome, IfNone, IfOk, OnOk, OnErr};
ghost use Rattle.elements.specs.Areas.{element_of};
ghost use Rattle.elements.specs.Reading.{next_is, element_at, coded_at, imsi_at, number_at, after_tmsi};
ghost use Rattle.elements.specs.Reading.{tmsi_at, after_channel, channel_at, area_at, end_at};

use crate::area::{Area, LocationArea};
use crate::code::Coded;
use crate::element::Element;
use crate::fault::{Fault, FaultKind};
use imsi::reading::digits_in;

// The number in the four octets from `at` on, the high octet first, if there are so many.
pub fn number_at(octets: &[u8], at: usize) -> Option<u32>
    ensures { MatchOption result (length octets.now < at + 4) (λ n. n ≡ number_at octets.now at) }
{
    let four = octets.get(at..)?.first_chunk::<4>()?;
    Some(u32::from_be_bytes(*four))
}

// Octets, and the place at which the next element is read. Each reading that succeeds steps over what it
// read; one that refuses leaves the reader where it was. `coded` is for elements of one octet.
#[derive(Clone, Copy, Debug)]
pub struct Reader<'a> {
    pub octets: &'a [u8],
    pub at: usize,
}

impl<'a> Reader<'a> {
    // From the first octet on.
    pub fn new(octets: &'a [u8]) -> Reader<'a>
        ensures { result ≡ record { octets = octets.entry; at = 0 } }
    {
        Reader { octets, at: 0 }
    }

    // One octet, unless the octets end here.
    pub fn octet(&mut self) -> Option<u8>
        ensures value { result ≡ slice_get self.old.octets.now self.old.at }
        ensures after { IfSome result (λ _. self.new ≡ record self.old { at = self.old.at + 1 }) }
        ensures ended { IfNone result (self.new ≡ self.old) }
    {
        let octet = *self.octets.get(self.at)?;
        self.at += 1;
        Some(octet)
    }

    // Does the identifier of `element` come next?
    pub fn is_next(&self, element: Element) -> bool
        ensures { result ≡ next_is self.now.octets.now self.now.at element }
    {
        let Reader { octets, at } = *self;
        at < octets.len() && octets[at] == element.identifier()
    }

    // How many content octets the element has that comes next; they stand behind
    // its identifier and its length.
    pub fn content_count(&self, element: Element) -> Result<usize, Fault>
        ensures { result ≡ element_at self.now.octets.now self.now.at element }
    {
        let Reader { octets, at } = *self;
        if !self.is_next(element) {
            return Err(FaultKind::Identifier.at(at));
        }
        let after = octets.len() - at;
        if after < 2 {
            return Err(FaultKind::Length.at(at + 1));
        }
        let count = octets[at + 1] as usize;
        if count < element.least() || count > element.most() || count > after - 2 {
            return Err(FaultKind::Length.at(at + 1));
        }
        Ok(count)
    }

    // The value that the content octet of an element stands for.
    pub fn coded<T: Coded>(&mut self, element: Element) -> Result<T, Fault>
        ensures value { result ≡ coded_at T.Coded.value_in self.old.octets.now self.old.at element }
        ensures after { OnOk result (self.new ≡ record self.old { at = self.old.at + 3 }) }
        ensures refused { OnErr result (self.new ≡ self.old) }
    {
        let _count = self.content_count(element)?;
        let place = self.at + 2;
        let value = T::from_octet(self.octets[place]).ok_or(FaultKind::Contents.at(place))?;
        self.at += 3;
        Ok(value)
    }

    // The digit count and the value of an IMSI: the pair from which an `Imsi` is made.
    pub fn imsi(&mut self) -> Result<(u8, u64), Fault>
        ensures value { result ≡ imsi_at self.old.octets.now self.old.at }
        ensures after { IfOk result (λ i. self.new ≡ record self.old { at = self.old.at + 3 + i.0 / 2 }) }
        ensures refused { OnErr result (self.new ≡ self.old) }
    {
        let count = self.content_count(Element::Imsi)?;
        let place = self.at + 2;
        let contents = &self.octets[place..place + count];
        let digits = digits_in(contents).ok_or(FaultKind::Contents.at(place))?;
        self.at += 2 + count;
        Ok(digits)
    }

    // A TMSI, which is absent unless its identifier is next.
    pub fn tmsi(&mut self) -> Result<Option<u32>, Fault>
        ensures value { result ≡ tmsi_at self.old.octets.now self.old.at }
        ensures after { IfOk result (λ t. self.new ≡ record self.old { at = after_tmsi self.old.at t }) }
        ensures refused { OnErr result (self.new ≡ self.old) }
    {
        if !self.is_next(Element::Tmsi) {
            return Ok(None);
        }
        let _count = self.content_count(Element::Tmsi)?;
        let number = number_at(self.octets, self.at + 2).unwrap();
        self.at += 6;
        Ok(Some(number))
    }

    // A channel, which is absent unless its identifier is next.
    pub fn channel(&mut self) -> Result<Option<u8>, Fault>
        ensures value { result ≡ channel_at self.old.octets.now self.old.at }
        ensures after { IfOk result (λ c. self.new ≡ record self.old { at = after_channel self.old.at c }) }
        ensures refused { OnErr result (self.new ≡ self.old) }
    {
        if !self.is_next(Element::Channel) {
            return Ok(None);
        }
        let _count = self.content_count(Element::Channel)?;
        let place = self.at + 2;
        let number = self.octets[place];
        if number > 3 {
            return Err(FaultKind::Contents.at(place));
        }
        self.at += 3;
        Ok(Some(number))
    }

    // A location area.
    pub fn area(&mut self, area: Area) -> Result<LocationArea, Fault>
        ensures value { result ≡ area_at self.old.octets.now self.old.at (element_of area) }
        ensures after { OnOk result (self.new ≡ record self.old { at = self.old.at + 7 }) }
        ensures refused { OnErr result (self.new ≡ self.old) }
    {
        let Reader { octets, at } = *self;
        let _count = self.content_count(area.element())?;
        self.at += 7;
        Ok(LocationArea {
            octets: *octets[at + 2..].first_chunk::<5>().unwrap(),
        })
    }

    // Nothing may follow.
    pub fn end(&self) -> Result<(), Fault>
        ensures { result ≡ end_at self.now.octets.now self.now.at tt }
    {
        if self.at < self.octets.len() {
            return Err(FaultKind::Trailing.at(self.at));
        }
        Ok(())
    }
}

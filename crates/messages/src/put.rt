// Octets put into a buffer, one element after another.
ghost use Rattle.std.specs.Prelude.{◌≡◌, ◌+◌, ◌<◌, ◌≤◌, true, ◌∷◌, length};

use elements::area::{Area, LocationArea};
use elements::code::Coded;
use elements::element::Element;
use imsi::Imsi;
use imsi::writing::octets_of;

// A buffer, and the place where the next octet goes.
#[derive(Drop)]
pub(crate) struct Writer<'a> {
    pub(crate) buffer: &'a mut [u8],
    pub(crate) at: usize,
    ghost within: { at ≤ length buffer.now },
}

impl Writer<'_> {
    ghost use Rattle.elements.specs.Areas.{element_of};
    ghost use Rattle.elements.specs.Spelling.{imsi_element, octet_element, area_element, tmsi_element};
    ghost use Rattle.elements.specs.Spelling.{channel_element};
    ghost use Rattle.elements.specs.Table.{identifier_of};
    ghost use Rattle.messages.specs.Lawful.{lawful_mobile};
    ghost use Rattle.messages.specs.Writing.{HasRoom, Puts};

    // Copies `octets` into the buffer.
    pub(crate) fn put(&mut self, octets: &[u8])
        requires { HasRoom self.old (length octets.now) }
        ensures { Puts (length octets.now) octets.now self.old self.new }
    {
        let end = self.at + octets.len();
        self.buffer[self.at..end].copy_from_slice(octets);
        self.at = end;
    }

    // An identifier, a count of octets and the octets.
    fn element(&mut self, element: Element, contents: &[u8])
        requires count { length contents.now < 256 }
        requires room { HasRoom self.old (2 + length contents.now) }
        ensures { Puts (2 + length contents.now)
            (identifier_of element ∷ length contents.now ∷ contents.now) self.old self.new }
    {
        self.put(&[element.identifier(), contents.len() as u8]);
        self.put(contents);
    }

    pub(crate) fn imsi(&mut self, imsi: Imsi)
        requires lawful { lawful_mobile imsi ≡ true }
        requires room { HasRoom self.old 10 }
        ensures { Puts 10 (imsi_element imsi) self.old self.new }
    {
        // A lawful IMSI has octets.
        let spelt = octets_of(imsi).unwrap();
        self.element(Element::Imsi, &spelt.octets[..spelt.count]);
    }

    // The octet that stands for `value`.
    pub(crate) fn code<C: Coded>(&mut self, element: Element, value: C)
        requires { HasRoom self.old 3 }
        ensures { Puts 3 (octet_element element (C.octet_of value)) self.old self.new }
    {
        self.element(element, &[value.octet()]);
    }

    pub(crate) fn area(&mut self, which: Area, area: LocationArea)
        requires { HasRoom self.old 7 }
        ensures { Puts 7 (area_element (element_of which) area) self.old self.new }
    {
        self.element(which.element(), &area.octets);
    }

    // Nothing where it is absent.
    pub(crate) fn tmsi(&mut self, tmsi: Option<u32>)
        requires { HasRoom self.old 6 }
        ensures { Puts 6 (tmsi_element tmsi) self.old self.new }
    {
        if let Some(number) = tmsi {
            self.element(Element::Tmsi, &number.to_be_bytes());
        }
    }

    // Nothing where it is absent.
    pub(crate) fn channel(&mut self, channel: Option<u8>)
        requires { HasRoom self.old 3 }
        ensures { Puts 3 (channel_element channel) self.old self.new }
    {
        if let Some(number) = channel {
            self.element(Element::Channel, &[number]);
        }
    }
}

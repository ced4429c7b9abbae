// The second reader. It shares no function with the library and goes another way: one loop walks the table
// and takes element after element off the front of what is left.
use crate::answer::{Answer, Content, Found, Header, Refusal};
use crate::rule::Rule;
use crate::sample::{Form, Sample};
use crate::table::{Kind, Row, message_type};
use arrayvec::ArrayVec;

const LONGEST_FRAME: usize = 64;
// The octets of a frame in front of its message.
const HEADER: usize = 10;
// The longest IMSI has 15 digits. There is room for more, so that too many would be seen.
const MOST_DIGITS: usize = 20;

// Octets as one number, the high octet first. No more than five are ever handed in, so nothing wraps.
fn number(octets: &[u8]) -> u64 {
    octets.iter().fold(0, |value: u64, octet| {
        value.wrapping_mul(256).wrapping_add(u64::from(*octet))
    })
}

// The number that the digits write, added up from the last digit back; nothing where one of them is no
// decimal digit.
fn total(digits: &[u8]) -> Option<u64> {
    let mut value: u64 = 0;
    let mut weight: u64 = 1;
    for digit in digits.iter().rev() {
        if *digit > 9 {
            return None;
        }
        value = value.wrapping_add(weight.wrapping_mul(u64::from(*digit)));
        weight = weight.wrapping_mul(10);
    }
    Some(value)
}

// The contents of an IMSI, as the count of its digits and the number that they write. The low half of the
// first octet is 9 for an odd count of digits and 1 for an even one; the digits follow, the low half of each
// octet before the high half. Behind an even count the last high half is filled with 15.
fn imsi(contents: &[u8]) -> Option<(u8, u64)> {
    let [first, pairs @ ..] = contents else {
        return None;
    };
    let (pairs, single) = match (*first % 16, pairs) {
        (9, _) => (pairs, None),
        (1, [pairs @ .., last]) if *last / 16 == 15 => (pairs, Some(*last % 16)),
        _ => return None,
    };
    let mut digits: ArrayVec<u8, MOST_DIGITS> = ArrayVec::new();
    digits.try_push(*first / 16).ok()?;
    for pair in pairs {
        digits.try_push(*pair % 16).ok()?;
        digits.try_push(*pair / 16).ok()?;
    }
    if let Some(digit) = single {
        digits.try_push(digit).ok()?;
    }
    let count = u8::try_from(digits.len()).ok()?;
    Some((count, total(digits.as_slice())?))
}

// What the contents of an element say: how many digits, where they are digits, and a value.
fn meaning(contents: &[u8], kind: Kind) -> Option<(Option<u8>, u64)> {
    match kind {
        Kind::Digits => imsi(contents).map(|(digits, value)| (Some(digits), value)),
        Kind::Octet { low, high } => match contents {
            [octet] if low <= *octet && *octet <= high => Some((None, u64::from(*octet))),
            _ => None,
        },
        Kind::Number { .. } => Some((None, number(contents))),
    }
}

// The element of this row at the front of `rest`, which stands at `place`, and what follows it; nothing
// where an optional element is absent.
fn element<'a>(
    rest: &'a [u8],
    place: usize,
    row: &Row,
) -> Result<Option<(Found, &'a [u8])>, Refusal> {
    if !rest.starts_with(&[row.identifier]) {
        return if row.optional {
            Ok(None)
        } else {
            Err(Rule::Identifier.at(place))
        };
    }
    let bad_length = Rule::Length.at(place.saturating_add(1));
    let bad_contents = Rule::Contents.at(place.saturating_add(2));
    let [identifier, length, behind @ ..] = rest else {
        return Err(bad_length);
    };
    if !row.kind.sizes().contains(length) {
        return Err(bad_length);
    }
    let (contents, after) = behind.split_at_checked(*length as usize).ok_or(bad_length)?;
    let (digits, value) = meaning(contents, row.kind).ok_or(bad_contents)?;
    let found = Found {
        identifier: *identifier,
        digits,
        value,
    };
    Ok(Some((found, after)))
}

// The message that these octets are, where `before` octets stand in front of them.
fn message(octets: &[u8], before: usize) -> Result<Content, Refusal> {
    let unknown = Rule::MessageType.at(before);
    let end = before.saturating_add(octets.len());
    let [type_octet, body @ ..] = octets else {
        return Err(unknown);
    };
    let mut content = Content::new(*type_octet);
    let mut rest = body;
    for row in message_type(*type_octet).ok_or(unknown)?.rows() {
        let place = end.saturating_sub(rest.len());
        if let Some((found, after)) = element(rest, place, row)? {
            content.add(found);
            rest = after;
        }
    }
    if !rest.is_empty() {
        return Err(Rule::Trailing.at(end.saturating_sub(rest.len())));
    }
    Ok(content)
}

fn is_node(octet: u8) -> bool {
    octet != 0 && octet != 255
}

// The frame that these octets are: at least one octet of a message follows the header.
fn frame(octets: &[u8]) -> Result<Answer, Refusal> {
    if octets.len() > LONGEST_FRAME {
        return Err(Rule::FrameSize.at(LONGEST_FRAME));
    }
    let [source, destination, a, b, c, d, e, f, g, h, rest @ ..] = octets else {
        return Err(Rule::FrameSize.at(octets.len()));
    };
    if rest.is_empty() {
        return Err(Rule::FrameSize.at(octets.len()));
    }
    let (source, destination) = (*source, *destination);
    if !is_node(source) || source == destination {
        return Err(Rule::Nodes.at(0));
    }
    if !is_node(destination) {
        return Err(Rule::Nodes.at(1));
    }
    let stamp = u32::from_le_bytes([*d, *c, *b, *a]);
    if stamp == 0 {
        return Err(Rule::Stamp.at(2));
    }
    let header = Header {
        source,
        destination,
        stamp,
        answers: u32::from_le_bytes([*h, *g, *f, *e]),
    };
    Ok(Answer {
        header: Some(header),
        content: message(rest, HEADER)?,
    })
}

// The second reader's answer.
pub(crate) fn read(sample: Sample) -> Result<Answer, Refusal> {
    match sample.form {
        Form::Message => Ok(Answer {
            header: None,
            content: message(sample.octets, 0)?,
        }),
        Form::Frame => frame(sample.octets),
    }
}

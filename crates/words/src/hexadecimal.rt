// Octets in hexadecimal: lines of them as a person writes them, and octets as the programs show them.
ghost use Rattle.std.specs.Prelude.{◌≡◌, ◌<◌, ◌≤◌, [], ◌∷◌, ◌++◌, length};
ghost use Rattle.std.specs.Prelude.{IfSome, OnOk, IfErr, Ok, Err, MatchResult};
ghost use Rattle.words.specs.declared.line.BadLine.TheVariants.{TooLong};
ghost use Rattle.words.specs.Hexadecimal.{is_blank, digit_in, lone_digit, octet_in, octets_in, octets_of};

use crate::line::{BadLine, LONGEST, LineOctets};
use std::fmt;

// A space, a tab, or the carriage return with which some systems end a line.
fn is_blank(character: u8) -> bool
    ensures { result ≡ is_blank character }
{
    matches!(character, b' ' | b'\t' | b'\r')
}

fn digit(character: u8) -> Option<u8>
    ensures value { result ≡ digit_in character }
    ensures bound { IfSome result (λ d. d < 16) }
{
    char::from(character).to_digit(16).map(|digit| digit as u8)
}

// Why a character with no second one beside it is no octet.
fn lone_digit(character: u8) -> BadLine
    ensures { result ≡ lone_digit character }
{
    match digit(character) {
        Some(_) => BadLine::OddDigits,
        None => BadLine::NotHexadecimal,
    }
}

// The octet that two characters write, the high digit first.
fn octet(high: u8, low: u8) -> Result<u8, BadLine>
    ensures { result ≡ octet_in high low }
{
    if is_blank(low) {
        return Err(lone_digit(high));
    }
    let (high, low) = digit(high).zip(digit(low)).ok_or(BadLine::NotHexadecimal)?;
    Ok(16 * high + low)
}

// The octets of a line, in either case of letters. Blanks may stand before, between and after octets.
pub fn octets_in_line(line: &[u8]) -> Result<LineOctets, BadLine>
    ensures { MatchResult result
        (λ v. octets_in 128 line.now ≡ Ok (octets_of v)) (λ e. octets_in 128 line.now ≡ Err e) }
{
    let mut octets = LineOctets::new();
    let mut rest = line;
    loop {
        match rest {
            [] => return Ok(octets),
            [first, tail @ ..] if is_blank(*first) => rest = tail,
            [only] => return Err(lone_digit(*only)),
            [high, low, tail @ ..] => {
                let octet = octet(*high, *low)?;
                octets.push(octet)?;
                rest = tail;
            }
        }
    }
}

impl LineOctets {
    fn new() -> LineOctets
        ensures { octets_of result ≡ [] }
    {
        LineOctets {
            octets: [0; LONGEST],
            count: 0,
        }
    }

    // One octet more, if there is room for it.
    fn push(&mut self, octet: u8) -> Result<(), BadLine>
        ensures room { OnOk result (length (octets_of self.old) < 128) }
        ensures more { OnOk result (octets_of self.new ≡ octets_of self.old ++ octet ∷ []) }
        ensures full { IfErr result (λ bad. (bad ≡ TooLong) × (length (octets_of self.old) ≡ 128)) }
    {
        if self.count == LONGEST {
            return Err(BadLine::TooLong);
        }
        self.octets[self.count] = octet;
        self.count += 1;
        Ok(())
    }

    pub fn as_slice(&self) -> &[u8]
        ensures value { result.now ≡ octets_of self.now }
        ensures fits { length result.now ≤ 128 }
    {
        &self.octets[0..self.count]
    }
}

impl fmt::Debug for LineOctets {
    fn fmt<W: fmt::Write>(&self, f: &mut fmt::Formatter<W>) -> fmt::Result {
        f.debug_struct("LineOctets")
            .field("octets", &self.as_slice())
            .finish()
    }
}

// Octets to be shown: two digits each, in capitals, with a text between one octet and the next.
#[derive(Clone, Copy)]
pub struct Hex<'a> {
    pub octets: &'a [u8],
    pub between: &'a str,
}

impl fmt::Display for Hex<'_> {
    fn fmt<W: fmt::Write>(&self, f: &mut fmt::Formatter<W>) -> fmt::Result {
        let [first, others @ ..] = self.octets else {
            return Ok(());
        };
        write!(f, "{first:02X}")?;
        for octet in others {
            write!(f, "{}{octet:02X}", self.between)?;
        }
        Ok(())
    }
}

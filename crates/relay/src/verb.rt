// The words that a line is known by, in capitals too.
ghost use Rattle.std.specs.Result.{result_ok};
ghost use Rattle.relay.specs.Verbs.{Asks, Names};

use crate::mistake::Mistake;

#[derive(Clone, Copy, Debug, PartialEq, Eq)]
pub enum Verb {
    Carrier,
    Put,
    Take,
}

impl TryFrom<&[u8]> for Verb {
    type Error = Mistake;

    ghost try_from_gives = { λ word result. Asks word.now (result_ok result) };

    fn try_from(word: &[u8]) -> Result<Verb, Mistake> {
        if word.eq_ignore_ascii_case(b"carrier") {
            Ok(Verb::Carrier)
        } else if word.eq_ignore_ascii_case(b"put") {
            Ok(Verb::Put)
        } else if word.eq_ignore_ascii_case(b"take") {
            Ok(Verb::Take)
        } else {
            Err(Mistake::Verb)
        }
    }
}

#[derive(Clone, Copy, Debug, PartialEq, Eq)]
pub enum Name {
    Queue,
    Slip,
    Gate,
    Mailbox,
    Nowhere,
}

impl TryFrom<&[u8]> for Name {
    type Error = Mistake;

    ghost try_from_gives = { λ word result. Names word.now (result_ok result) };

    fn try_from(word: &[u8]) -> Result<Name, Mistake> {
        if word.eq_ignore_ascii_case(b"queue") {
            Ok(Name::Queue)
        } else if word.eq_ignore_ascii_case(b"slip") {
            Ok(Name::Slip)
        } else if word.eq_ignore_ascii_case(b"gate") {
            Ok(Name::Gate)
        } else if word.eq_ignore_ascii_case(b"mailbox") {
            Ok(Name::Mailbox)
        } else if word.eq_ignore_ascii_case(b"nowhere") {
            Ok(Name::Nowhere)
        } else {
            Err(Mistake::Carrier)
        }
    }
}

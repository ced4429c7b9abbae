// The words of a line.

// The first word of a text, which does not begin with a blank, and what comes behind it.
pub(crate) fn first_word(text: &[u8]) -> (&[u8], &[u8]) {
    let end = text
        .iter()
        .position(|character| character.is_ascii_whitespace());
    text.split_at(end.unwrap_or(text.len()))
}

// The number from 0 to 255 that a word of decimal digits writes. Read in one pass, since a script has many.
pub(crate) fn number_in(word: &[u8]) -> Option<u8> {
    if word.is_empty() {
        return None;
    }
    word.iter().try_fold(0_u8, |number, character| {
        let digit = character.is_ascii_digit().then_some(*character)? - b'0';
        number.checked_mul(10)?.checked_add(digit)
    })
}

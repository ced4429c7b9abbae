// What is to be written out for a person.

// `{}` of `InWords(x)` is `x` in words: a frame, a message, or what a message says. These are types of other
// crates, which have no text of their own, and only a type of this crate can be given its text here, hence
// the wrapper.
#[derive(Clone, Copy)]
pub struct InWords<T>(pub T);

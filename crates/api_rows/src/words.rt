//! The words of a line.

/// The first word of a text, and what follows it. Words have one space between two.
pub fn first_word(text: &str) -> (&str, &str) {
    text.split_once(' ').unwrap_or((text, ""))
}

/// The numbers of a text.
#[derive(Clone, Copy)]
pub enum Numbers {
    None,
    One(u32),
    Two(u32, u32),
    Three(u32, u32, u32),
}

/// The number that a word spells.
pub fn number_in(word: &str) -> Option<u32> {
    word.parse::<u32>().ok()
}

/// The numbers of a text that has three at most, and nothing else.
pub fn numbers_in(text: &str) -> Option<Numbers> {
    if text.is_empty() {
        return Some(Numbers::None);
    }
    let Some((first, rest)) = text.split_once(' ') else {
        return Some(Numbers::One(number_in(text)?));
    };
    let first = number_in(first)?;
    let Some((second, third)) = rest.split_once(' ') else {
        return Some(Numbers::Two(first, number_in(rest)?));
    };
    Some(Numbers::Three(first, number_in(second)?, number_in(third)?))
}

/// A number that names a rank or a communicator: the last of these, which no run has, where it is greater.
pub fn short(number: u32) -> u16 {
    u16::try_from(number).unwrap_or(u16::MAX)
}

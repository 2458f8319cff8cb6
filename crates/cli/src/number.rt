//! Numbers among the words of the command line.

ghost use Rattle.std.specs.Prelude.{◌≡◌, ◌≤◌, IfSome};
ghost use Rattle.cli.specs.Numbers.{number_within};

/// The number from `least` to `most` that a word spells, as clap reads one: digits, also with zeros or a plus
/// before them. None where the word is no such number.
pub(crate) fn number_within(least: u32, most: u32, word: &str) -> Option<u32>
    ensures value { result ≡ number_within least most word.now }
    ensures least { IfSome result (λ number. least ≤ number) }
    ensures most { IfSome result (λ number. number ≤ most) }
{
    match word.parse() {
        Ok(number) if least <= number && number <= most => Some(number),
        _ => None,
    }
}

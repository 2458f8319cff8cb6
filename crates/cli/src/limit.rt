//! The reading that the command line asks for: the strict one, or the one with an eager limit.

ghost use Rattle.std.specs.Prelude.{◌≡◌, option_map};
ghost use Rattle.cli.specs.Limits.{reading_in};

use crate::number::number_within;
use moves::reading::Reading;
use mpicall::limits::GREATEST_BYTES;

/// The reading with the limit that a text spells, or None where that is no number of bytes. Without a text it
/// is the strict one.
pub fn read_reading(text: Option<&str>) -> Option<Reading>
    ensures { result ≡ reading_in (option_map (λ limit. limit.now) text.entry) }
{
    match text {
        Some(text) => {
            let limit = number_within(0, GREATEST_BYTES, text)?;
            Some(Reading::Eager(limit))
        }
        None => Some(Reading::Strict),
    }
}

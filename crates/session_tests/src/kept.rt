//! What tests own.

/// What a test owns, which one call drops: its proof at each exit is that call's.
pub(crate) struct Kept<T>(pub(crate) T);

impl<T: Drop> Drop for Kept<T> {
    fn drop(self) {
        let Kept(_) = self;
    }
}

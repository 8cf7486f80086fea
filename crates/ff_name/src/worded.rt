//! Values that are written as words, each with one of its own.
ghost use Rattle.std.specs.Prelude.{◌≡◌, ◌↔◌, ℕ, List, Some};
ghost use Rattle.ff_name.specs.Words.{with_word};

/// A value that is written as a word of its own.
pub trait Worded: Copy + 'static {
    ghost word_of: { Self → List ℕ };

    ghost each: { List Self };

    /// Each value.
    fn all() -> &'static [Self]
        ensures { result.now ≡ each };

    /// The value's word.
    fn word(self) -> &'static str
        ensures { result.now ≡ word_of self };

    // Each value is there, and none before it has its word.
    ghost own: { (value : Self) → with_word word_of each (word_of value) ≡ Some value };
}

/// The value with this word, or `None` where no value has it.
pub fn by_word<T: Worded>(word: &[u8]) -> Option<T>
    ensures value { result ≡ with_word T.word_of T.each word.now }
    ensures own { (value : T) → (result ≡ Some value) ↔ (T.word_of value ≡ word.now) }
{
    find_word(T::all(), word)
}

/// The first of some values that has the word.
fn find_word<T: Worded>(values: &[T], word: &[u8]) -> Option<T>
    ensures { result ≡ with_word T.word_of values.now word.now }
{
    values
        .iter()
        .copied()
        .find(|value| value.word().as_bytes() == word)
}

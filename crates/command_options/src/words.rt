ghost use Rattle.std.specs.Prelude.{◌≡◌, ◌∷◌, [], All, Any, IsUtf8, MatchOption, map, true, false};
ghost use Rattle.std.specs.Str.{bytes_eq};

// Whether the word is two hyphens and nothing else.
pub fn ends_options(word: &str) -> bool
    ensures value { result ≡ bytes_eq word.now (45 ∷ 45 ∷ []) }
    ensures text { IsUtf8 word.now }
{
    word == "--"
}

// Whether a word is two hyphens and nothing else.
pub fn has_end<'a>(words: &[&'a str]) -> bool
    ensures none { result ≡ false → All (λ word. bytes_eq word.now (45 ∷ 45 ∷ []) ≡ false) words.now }
    ensures some { result ≡ true → Any (λ word. bytes_eq word.now (45 ∷ 45 ∷ []) ≡ true) words.now }
    ensures text { result ≡ false → All (λ word. IsUtf8 word.now) words.now }
{
    for word in words {
        if ends_options(word) {
            return true;
        }
    }
    false
}

/// The first word, and those behind it; none if there is no word. Doesn't allocate.
pub fn first_word<'a>(words: &'a [&'a str]) -> Option<(&'a [u8], &'a [&'a str])>
    ensures { MatchOption result (map (λ word. word.now) words.entry.now ≡ [])
        (λ p. map (λ word. word.now) words.entry.now ≡ p.0.now ∷ map (λ word. word.now) p.1.now) }
{
    let (first, rest) = words.split_first()?;
    Some((first.as_bytes(), rest))
}

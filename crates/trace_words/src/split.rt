ghost use Rattle.std.specs.Prelude.{◌≡◌, ◌≢◌, ◌++◌, ◌∷◌, [], All, MatchOption, false};
ghost use Rattle.trace_words.specs.Words.{is_blank, is, words, cut_at, BeginsWord, BeginsBlank};
ghost use Rattle.trace_words.specs.Split.{both, listed};

/// The words of a text: up to six, or the first seven and the text behind them.
#[derive(Clone, Copy, Debug)]
pub enum Words<'a> {
    /// No word.
    Zero,
    /// One word.
    One(&'a [u8]),
    /// Two words, in order.
    Two(&'a [u8], &'a [u8]),
    /// Three words, in order.
    Three(&'a [u8], &'a [u8], &'a [u8]),
    /// Four words, in order.
    Four(&'a [u8], &'a [u8], &'a [u8], &'a [u8]),
    /// Five words, in order.
    Five(&'a [u8], &'a [u8], &'a [u8], &'a [u8], &'a [u8]),
    /// Six words, in order.
    Six(&'a [u8], &'a [u8], &'a [u8], &'a [u8], &'a [u8], &'a [u8]),
    /// More than six: the first six, and the text behind them, which has a word.
    More(&'a [u8], &'a [u8], &'a [u8], &'a [u8], &'a [u8], &'a [u8], &'a [u8], &'a [u8]),
}

/// Whether the word is this one.
pub fn is(word: &[u8], name: &[u8]) -> bool
    ensures { result ≡ is word.now name.now }
{
    word == name
}

/// What stands before the first such byte, and what stands after it, as parts of the text.
pub fn parted(text: &[u8], byte: u8) -> Option<(&[u8], &[u8])>
    ensures { MatchOption result (All (λ b. b ≢ byte) text.now)
        (λ x. All (λ b. b ≢ byte) x.0.now × (text.now ≡ x.0.now ++ byte ∷ x.1.now)) }
{
    let at = text.iter().position(|b| *b == byte)?;
    let (front, back) = text.split_at(at);
    Some((front, &back[1..]))
}

/// What stands before the first such byte, and what stands after it.
pub fn cut(text: &[u8], byte: u8) -> Option<(&[u8], &[u8])>
    ensures { both result ≡ cut_at byte text.now }
{
    match parted(text, byte) {
        None => None,
        Some((front, back)) => Some((front, back)),
    }
}

fn is_blank(byte: u8) -> bool
    ensures { result ≡ is_blank byte }
{
    byte == b' ' || byte == b'\t'
}

// The text from its first byte on that is no blank.
fn skip_blanks(text: &[u8]) -> &[u8]
    ensures same { words result.now ≡ words text.now }
    ensures begins { BeginsWord result.now }
{
    let mut rest = text;
    while let [first, after @ ..] = rest {
        if !is_blank(*first) {
            return rest;
        }
        rest = after;
    }
    rest
}

// What stands before the first blank, and what stands from it on.
fn cut_at_blank(text: &[u8]) -> Option<(&[u8], &[u8])>
    ensures { MatchOption result (All (λ b. is_blank b ≡ false) text.now)
        (λ x. All (λ b. is_blank b ≡ false) x.0.now × (text.now ≡ x.0.now ++ x.1.now) × BeginsBlank x.1.now) }
{
    let end = text.iter().position(|b| is_blank(*b))?;
    Some(text.split_at(end))
}

/// The first word of a text, and what stands behind it.
pub fn next_word(text: &[u8]) -> Option<(&[u8], &[u8])>
    ensures { MatchOption result (words text.now ≡ []) (λ x. words text.now ≡ x.0.now ∷ words x.1.now) }
{
    let rest = skip_blanks(text);
    if rest.is_empty() {
        return None;
    }
    match cut_at_blank(rest) {
        None => Some((rest, &[])),
        Some((word, behind)) => Some((word, behind)),
    }
}

/// The words of a text.
pub fn words_of(text: &[u8]) -> Words<'_>
    ensures { words text.now ≡ listed result }
{
    let Some((a, rest)) = next_word(text) else {
        return Words::Zero;
    };
    let Some((b, rest)) = next_word(rest) else {
        return Words::One(a);
    };
    let Some((c, rest)) = next_word(rest) else {
        return Words::Two(a, b);
    };
    let Some((d, rest)) = next_word(rest) else {
        return Words::Three(a, b, c);
    };
    let Some((e, rest)) = next_word(rest) else {
        return Words::Four(a, b, c, d);
    };
    let Some((f, rest)) = next_word(rest) else {
        return Words::Five(a, b, c, d, e);
    };
    match next_word(rest) {
        None => Words::Six(a, b, c, d, e, f),
        Some((g, rest)) => Words::More(a, b, c, d, e, f, g, rest),
    }
}

//! Lines of a text, and words of a line. Nothing here takes memory.
ghost use Rattle.std.specs.Prelude.{◌≡◌, MatchOption, ◌∷◌, [], ◌==◌};
ghost use Rattle.std.specs.List.{slice_split};
ghost use Rattle.std.specs.Option.{option_copied, option_map};
ghost use Rattle.readers.specs.Lines.{CutAt, Lacks, lines, words, only, two, three};

use memchr::memchr;

/// What stands before the first `byte`, and what follows it; None exactly where there is no such byte.
fn cut_at(bytes: &[u8], byte: u8) -> Option<(&[u8], &[u8])>
    ensures { MatchOption result (Lacks byte bytes.now) (λ p. CutAt byte bytes.now p.0.now p.1.now) }
{
    let at = memchr(byte, bytes)?;
    let (front, back) = bytes.split_at(at);
    Some((front, &back[1..]))
}

/// The first line without its LF, and what follows it; None exactly where there is no LF.
pub fn cut_line(bytes: &[u8]) -> Option<(&[u8], &[u8])>
    ensures cut { MatchOption result (Lacks 10 bytes.now) (λ p. CutAt 10 bytes.now p.0.now p.1.now) }
    ensures lines { MatchOption result (lines bytes.now ≡ bytes.now ∷ []) (λ p. lines bytes.now ≡ p.0.now ∷ lines p.1.now) }
{
    match cut_at(bytes, b'\n') {
        Some((line, rest)) => Some((line, rest)),
        None => None,
    }
}

/// The first word, and what follows the space after it, if there is one.
pub fn cut_word(line: &[u8]) -> (&[u8], Option<&[u8]>)
    ensures cut { MatchOption result.1 (Lacks 32 line.now) (λ rest. CutAt 32 line.now result.0.now rest.now) }
    ensures words { MatchOption result.1 (words line.now ≡ result.0.now ∷ []) (λ rest. words line.now ≡ result.0.now ∷ words rest.now) }
    ensures whole { MatchOption result.1 (result.0.now ≡ line.now) (λ _. Unit {0}) }
{
    match cut_at(line, b' ') {
        Some((word, rest)) => (word, Some(rest)),
        None => (line, None),
    }
}

/// The word of a line that is one word.
pub fn one_word(line: &[u8]) -> Option<&[u8]>
    ensures { option_copied result ≡ only (words line.now) }
{
    match cut_word(line) {
        (word, None) => Some(word),
        (_, Some(_)) => None,
    }
}

/// The words of a line that is two words.
pub fn two_words(line: &[u8]) -> Option<(&[u8], &[u8])>
    ensures { option_map (λ p. (p.0.now, p.1.now)) result ≡ two (words line.now) }
{
    let (first, Some(rest)) = cut_word(line) else {
        return None;
    };
    match one_word(rest) {
        Some(second) => Some((first, second)),
        None => None,
    }
}

/// The words of a line that is three words.
pub fn three_words(line: &[u8]) -> Option<(&[u8], &[u8], &[u8])>
    ensures { option_map (λ p. (p.0.now, p.1.now, p.2.now)) result ≡ three (words line.now) }
{
    let (first, Some(rest)) = cut_word(line) else {
        return None;
    };
    match two_words(rest) {
        Some((second, third)) => Some((first, second, third)),
        None => None,
    }
}

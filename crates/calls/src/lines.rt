//! Lines and their words.
use readers::{cut_line, one_word, three_words, two_words};
use std::test::Fail;

#[test]
fn a_line_is_cut_at_each_space(rt: HostRuntime) -> Result<(), Fail> {
    let (line, rest) = cut_line(b"mem 0x10\nff").ok_or("no LF")?;
    assert!(rt; line == b"mem 0x10".as_slice());
    assert!(rt; rest == b"ff".as_slice());
    assert!(rt; cut_line(rest).is_none());
    let (first, second) = two_words(line).ok_or("not two words")?;
    assert!(rt; first == b"mem".as_slice());
    assert!(rt; second == b"0x10".as_slice());
    assert!(rt; two_words(b"mem  0x10").is_none());
    assert!(rt; three_words(b"a  b").is_some());
    assert!(rt; one_word(b"").is_some());
    Ok(())
}

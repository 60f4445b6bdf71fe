//! The words of a text, each with its line and its place, and the first byte that none may have.

use script_tokens::{TokenFault, tokens};
use std::alloc::Global;
use std::process::Abort;

// The words of the bytes are these texts, in these lines and from these places on.
fn are_words(rt: &impl Abort, alloc: Global, source: &[u8], wanted: &[(&[u8], u32, u32)]) {
    if 1_000_000 < source.len() {
        return;
    }
    match tokens(alloc, source) {
        Ok(found) => {
            assert_eq!(rt; found.len(), wanted.len());
            for (token, (text, line, start)) in found.iter().zip(wanted) {
                assert_eq!(rt; token.text, *text);
                assert_eq!(rt; (token.line, token.start), (*line, *start));
            }
        }
        Err(fault) => assert!(rt; false, "no words: {fault:?}"),
    }
}

#[test]
fn words_are_cut_with_their_places(rt: HostRuntime) {
    are_words(&rt, rt.alloc(), b" \t\n\r\n", &[]);
    are_words(
        &rt,
        rt.alloc(),
        b"a\tb#x \r\n# c\n\nd",
        &[(b"a", 1, 0), (b"b", 1, 2), (b"d", 4, 13)],
    );
}

#[test]
fn the_line_of_the_first_fault_is_told(rt: HostRuntime) {
    let rows = [
        (b"a\nb # \x00\n".as_slice(), 2),
        (b"a\r".as_slice(), 1),
        (b"\n\n\r \n".as_slice(), 3),
    ];
    for (source, line) in rows {
        if source.len() <= 1_000_000 {
            let found = tokens(rt.alloc(), source).err();
            assert_eq!(rt; found, Some(TokenFault::NotAscii { line }));
        }
    }
}

//! Names, paths, texts and sides.

use dr_base::{Name, Path, Side, Text};

// Whether each of these is a name.
fn are_names(all: &[&[u8]]) -> bool {
    for bytes in all {
        match Name::read(bytes) {
            Some(name) if name.bytes() == *bytes => {}
            _ => return false,
        }
    }
    true
}

// Whether none of these is a name.
fn are_no_names(all: &[&[u8]]) -> bool {
    for bytes in all {
        if Name::read(bytes).is_some() {
            return false;
        }
    }
    true
}

#[test]
fn a_name_begins_with_a_letter_or_digit_and_has_at_most_64_bytes(rt: HostRuntime) {
    assert!(rt;
        are_names(&[
            b"a",
            b"z",
            b"A",
            b"Z",
            b"0",
            b"9",
            b"a-b",
            b"a_b",
            b"a.b",
            &[b'a'; 64]
        ])
    );
    assert!(rt;
        are_no_names(&[
            b"",
            b"-a",
            b"_a",
            b".a",
            b"a b",
            b"a/b",
            b"a:",
            b"\xc3\xa9",
            &[b'a'; 65]
        ])
    );
}

// Whether each of these is a path.
fn are_paths(all: &[&[u8]]) -> bool {
    for bytes in all {
        match Path::read(bytes) {
            Some(path) if path.bytes() == *bytes => {}
            _ => return false,
        }
    }
    true
}

// Whether none of these is a path.
fn are_no_paths(all: &[&[u8]]) -> bool {
    for bytes in all {
        if Path::read(bytes).is_some() {
            return false;
        }
    }
    true
}

#[test]
fn a_path_has_one_to_eight_names(rt: HostRuntime) {
    assert!(rt; are_paths(&[b"a", b"a/b-1/c", b"1/2/3/4/5/6/7/8", &[b'a'; 64]]));
    let mut long = [b'a'; 65];
    long[32] = b'/';
    assert!(rt;
        are_no_paths(&[
            b"",
            b"/",
            b"/a",
            b"a/",
            b"a//b",
            b"a/-b",
            b"1/2/3/4/5/6/7/8/9",
            &long
        ])
    );
}

// Whether each of these is a text.
fn are_texts(all: &[&[u8]]) -> bool {
    for bytes in all {
        match Text::read(bytes) {
            Some(text) if text.bytes() == *bytes => {}
            _ => return false,
        }
    }
    true
}

// Whether none of these is a text.
fn are_no_texts(all: &[&[u8]]) -> bool {
    for bytes in all {
        if Text::read(bytes).is_some() {
            return false;
        }
    }
    true
}

#[test]
fn a_text_has_1_to_128_printable_bytes(rt: HostRuntime) {
    assert!(rt; are_texts(&[b" ", b"~", b"Is the \"core\" switch up?", &[b'a'; 128]]));
    assert!(rt; are_no_texts(&[b"", b"a\x1f", b"a\x7f", b"\x80", &[b'a'; 129]]));
}

#[test]
fn each_side_is_the_others_other(rt: HostRuntime) {
    assert!(rt; Side::A.other() == Side::B);
    assert!(rt; Side::B.other() == Side::A);
}

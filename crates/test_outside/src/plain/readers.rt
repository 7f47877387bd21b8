//! Numbers, codes of commands, and values at two sides.

use crate::ports::name;
use dr_base::Side;
use dr_outside::{Sides, exit_code, read_decimal};

// Whether none of these is a number.
fn are_no_numbers(all: &[&[u8]]) -> bool {
    for bytes in all {
        if read_decimal(bytes).is_some() {
            return false;
        }
    }
    true
}

#[test]
fn a_number_has_one_spelling(rt: HostRuntime) {
    assert!(rt; read_decimal(b"0") == Some(0));
    assert!(rt; read_decimal(b"40") == Some(40));
    assert!(rt; read_decimal(b"18446744073709551615") == Some(u64::MAX));
    assert!(rt; are_no_numbers(&[b"", b"18446744073709551616", b"007", b"+7", b"-7"]));
    assert!(rt; are_no_numbers(&[b" 7", b"7 ", b"7a", b"\xD9\xA4", b"\xFF"]));
}

#[test]
fn a_name_gives_its_code(rt: HostRuntime) {
    for (text, code) in [
        ("exit-0", 0),
        ("exit-1", 1),
        ("exit-10", 10),
        ("exit-255", 255),
        ("exit-256", 0),
        ("exit-1000", 0),
        ("exit-007", 0),
        ("exit-00", 0),
        ("exit-", 0),
        ("exit-7a", 0),
        ("exit--7", 0),
        ("exit7", 0),
        ("Exit-7", 0),
        ("exit-7-", 0),
        ("7", 0),
        ("warm", 0),
    ] {
        assert!(rt; exit_code(&name(&rt, text)) == code, "{text}");
    }
}

#[test]
fn sides_are_read_and_put_apart(rt: HostRuntime) {
    let sides = Sides { a: 1, b: 2 };
    assert_eq!(rt; sides.at(Side::A), 1);
    assert_eq!(rt; sides.at(Side::B), 2);
    assert!(rt; sides.put(Side::A, 9) == Sides { a: 9, b: 2 });
    assert!(rt; sides.put(Side::B, 9) == Sides { a: 1, b: 9 });
    assert!(rt; Sides::only(Side::A) == Sides { a: true, b: false });
    assert!(rt; Sides::only(Side::B) == Sides { a: false, b: true });
}

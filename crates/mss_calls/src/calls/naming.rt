use mss_model::is_name;
use mss_names::{NameRefusal, NameTable};
use std::process::Abort;

#[test]
fn names_by_the_rule(rt: HostRuntime) {
    let cases: &[(&[u8], bool)] = &[
        (b"A", true),
        (b"Orthop\xc3\xa4die", true),
        (b" ", true),
        (b"a,\"b\"", true),
        (b"--", true),
        (&[b'x'; 60], true),
        (b"", false),
        (b"-", false),
        (&[b'x'; 61], false),
        (b"a\tb", false),
        (b"a\x1f", false),
        (b"a\x7f", false),
        (b"Orthop\xe4die", false),
    ];
    for (bytes, expected) in cases {
        assert_eq!(rt; is_name(bytes), *expected);
    }
}

#[test]
fn a_full_table(rt: HostRuntime) {
    let Ok(mut table) = NameTable::make(rt.alloc(), 1) else {
        panic!(rt; "no memory");
    };
    add_names(&rt, &mut table);
    assert_one_name(&rt, &table);
}

fn add_names(rt: &impl Abort, table: &mut NameTable) {
    let cases: &[(&[u8], Result<u32, NameRefusal>)] = &[
        (b"A", Ok(1)),
        (b"A", Ok(1)),
        (b"B", Err(NameRefusal::TooMany)),
        (b"", Err(NameRefusal::BadName)),
        (b"-", Err(NameRefusal::BadName)),
    ];
    for (name, expected) in cases {
        assert_eq!(rt; table.add(name), *expected);
    }
}

fn assert_one_name(rt: &impl Abort, table: &NameTable) {
    assert_eq!(rt;
        (table.len(), table.find(b"A"), table.find(b"B")),
        (1, Some(1), None)
    );
}

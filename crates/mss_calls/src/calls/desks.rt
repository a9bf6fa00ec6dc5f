use mss_desk::{Desk, FolderDesk, MemoryDesk, ReadAnswer, SureDesk, UNFINISHED, WriteAnswer};
use std::alloc::AllocGlobal;
use std::fs;
use std::process::Abort;
use std::rt::Files;

/// Whether a desk holds a file of these bytes.
fn holds(desk: &MemoryDesk, name: &str, bytes: &[u8]) -> bool {
    match desk.file(name) {
        Some(held) => held == bytes,
        None => false,
    }
}

#[test]
fn a_failing_put_leaves_half(rt: HostRuntime) {
    let mut desk = MemoryDesk::make(rt.alloc());
    assert!(rt; desk.fail_at(2).is_ok());
    assert_eq!(rt; desk.put("a", b"first"), WriteAnswer::Done);
    assert!(rt; holds(&desk, "a", b"first"));
    assert_eq!(rt; desk.put("a", b"second!"), WriteAnswer::Failed);
    assert!(rt; holds(&desk, "a", b"sec"));
    assert_eq!(rt; desk.calls(), 2);
}

#[test]
fn a_sure_desk_keeps_what_is_put(rt: HostRuntime) {
    let mut desk = SureDesk::make(rt.alloc());
    assert_eq!(rt; desk.put("a", b"first"), WriteAnswer::Done);
    assert_eq!(rt; desk.put("a", b"second"), WriteAnswer::Done);
    assert_eq!(rt; desk.file("a"), Some(b"second".as_slice()));
}

// One test, since the desks of a folder share the file that a put writes first.
#[test]
fn a_folder_has_real_files(rt: HostRuntime) {
    reads_give_at_most_a_byte_more(rt, &rt);
    puts_leave_no_unfinished_file(rt, &rt);
    puts_over_a_folder_fail(rt, &rt);
}

fn reads_give_at_most_a_byte_more<H: Files + Print + Eprint + Drop + Copy>(
    host: H,
    rt: &(impl AllocGlobal + Abort),
) {
    let alloc = rt.alloc();
    let mut desk = FolderDesk::make(host, "mss_calls");
    let name = "folder-desk.test";
    assert_eq!(rt; desk.put(name, b"eight by"), WriteAnswer::Done);
    for (limit, answer, length) in [
        (7, ReadAnswer::More, 8),
        (8, ReadAnswer::Done, 8),
        (usize::MAX, ReadAnswer::Done, 8),
        (0, ReadAnswer::More, 1),
    ] {
        let mut out = Vec::new(alloc);
        assert_eq!(rt; desk.read(name, limit, &mut out), answer, "at {limit}");
        assert_eq!(rt; out.len(), length, "at {limit}");
    }
    assert_eq!(rt; desk.put(name, b""), WriteAnswer::Done);
    let mut out = Vec::new(alloc);
    assert_eq!(rt; desk.read(name, 0, &mut out), ReadAnswer::Done);
    assert!(rt; fs::remove_file(&host, name).is_ok());
    assert_eq!(rt; desk.read(name, 8, &mut out), ReadAnswer::Failed);
    assert_eq!(rt; desk.say(b""), WriteAnswer::Done);
}

fn puts_leave_no_unfinished_file<H: Files + Print + Eprint + Drop + Copy>(
    host: H,
    rt: &(impl AllocGlobal + Abort),
) {
    let mut desk = FolderDesk::make(host, "mss_calls");
    let name = "folder-desk.test";
    assert!(rt; fs::write(&host, UNFINISHED, "left by a run that was stopped").is_ok());
    assert_eq!(rt; desk.put(name, b"first"), WriteAnswer::Done);
    assert!(rt; fs::metadata(&host, UNFINISHED).is_err());
    assert_eq!(rt; desk.put("no such folder/file", b"a"), WriteAnswer::Failed);
    assert!(rt; fs::metadata(&host, UNFINISHED).is_err());
    let mut out = Vec::new(rt.alloc());
    assert_eq!(rt; desk.read(name, 8, &mut out), ReadAnswer::Done);
    assert_eq!(rt; out.as_slice(), b"first".as_slice());
    assert!(rt; fs::remove_file(&host, name).is_ok());
}

fn puts_over_a_folder_fail<H: Files + Print + Eprint + Drop + Copy>(
    host: H,
    rt: &(impl AllocGlobal + Abort),
) {
    let mut desk = FolderDesk::make(host, "mss_calls");
    let name = "folder-desk.folder";
    assert!(rt; fs::create_dir(&host, name).is_ok());
    assert_eq!(rt; desk.put(name, b"a"), WriteAnswer::Failed);
    assert!(rt; fs::metadata(&host, UNFINISHED).is_err());
    assert!(rt; fs::remove_dir(&host, name).is_ok());
}

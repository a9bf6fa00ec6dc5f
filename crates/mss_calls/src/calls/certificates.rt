ghost use Rattle.mss_cert.specs.CertificateText.{IsShort};

use mss_cert::{Certificate, End, Line, read, write};
use std::alloc::AllocGlobal;
use std::process::Abort;

/// The certificate of two days and two rooms.
const TEXT: &[u8] =
    b"mss certificate 1\nslots 4 options 2 level 500000\nbranch 1\nbranch 2\nbranch 3\ndead 7\nbranch 4\ndead 7\nfull 5 4 1 2\nbranch 6\nbranch 7\ndead 7\nfull 8 2 1 1\nclosed 9 2 1 1\nclosed 10 2 1 1\nlower 2\n";

#[test]
fn a_certificate_is_read_and_written(rt: HostRuntime) {
    assert!(rt; TEXT.len() <= 1_000);
    let Ok(certificate) = read(rt.alloc(), TEXT) else {
        panic!(rt; "refused");
    };
    assert_lines(&rt, &certificate);
    assert_text(&rt, &certificate);
}

fn assert_lines(rt: &impl Abort, certificate: &Certificate) {
    assert_eq!(rt; certificate.version, 1);
    assert_eq!(rt;
        (certificate.slots, certificate.options, certificate.level),
        (4, 2, 500_000)
    );
    assert_eq!(rt; certificate.end, End::Lower { number: 2 });
    let long = certificate.tree.len() == 13;
    assert!(rt; long);
    let full = Line::Full {
        turn: 8,
        number: 2,
        ward: 1,
        day: 1,
    };
    assert_eq!(rt; certificate.tree.get(10), full);
}

fn assert_text(rt: &(impl AllocGlobal + Abort), certificate: &Certificate)
    requires { IsShort certificate.now }
{
    match write(rt.alloc(), certificate) {
        Ok(text) => assert_eq!(rt; text.bytes(), TEXT),
        Err(_) => panic!(rt; "no memory"),
    }
}

// What is printed of a certificate that was read, byte for byte, and a failed write.

use crate::print;
use ac_cert_text::parse;
use ac_claim::Cert;
use ac_io::MemSink;
use std::alloc::Global;
use std::process::Abort;

static HEAD: &str = "ac3cert 1\n\
shape 1 1 0 0 - - 174\n\
raw 0 0 9 9 9 9 10 10 8 10 9 9 10 10 12 11 11 11 9 9 10 10 10 11 10 11 10 10 12 10 13 11 13 12 13 14 10 12 11 16 14 14 15 11 13 13 16 12 14 15 14 14 15 14 15 12 16 17 16 16 13 16 16 16 15 16 17 18 19 17 16 17 14 15 15\n\
raw 0 1 9 10 9 9 8 12 10 9 9 9 9 9 11 11 12 10 8 11 11 12 11 10 9 12 11 9 13 10 12 12 13 14 15 14 11 13 11 14 15 15 15 12 12 12 14 11 13 13 15 14 13 16 15 14 14 17 17 15 14 17 16 14 16 18 17 18 17 17 17 16 14 14 15\n\
raw 0 2 10 9 9 10 9 11 9 9 8 8 8 10 11 9 12 10 8 9 9 10 10 10 10 12 10 9 12 12 12 10 13 14 15 13 11 11 13 14 13 14 13 11 12 11 14 11 12 14 13 15 14 14 14 13 14 17 18 14 13 15 15 16 17 17 19 18 18 16 16 16 16 16 15\n\
raw 0 3 11 9 9 10 9 10 10 9 8 8 9 11 11 9 11 11 8 9 9 10 12 10 11 11 10 10 12 11 11 11 11 14 14 14 12 12 13 14 13 16 15 12 12 11 16 11 12 13 14 15 13 16 14 12 14 18 17 15 13 17 17 16 17 16 18 18 18 18 17 16 14 16 16\n\
raw 0 4 10 10 9 10 8 11 8 10 8 9 10 10 11 9 13 10 8 9 9 12 12 10 11 11 9 9 13 10 11 12 11 13 13 12 10 12 13 16 13 15 14 12 12 12 14 13 12 14 14 13 15 16 14 14 15 17 16 14 15 17 15 16 16 17 19 18 18 17 15 17 16 15 16\n\
raw 0 5 11 10 7 9 8 12 10 10 8 8 9 9 11 9 11 10 9 11 9 11 11 10 11 13 9 11 11 11 13 10 13 13 13 12 10 11 13 16 14 14 13 13 12 12 15 12 12 15 15 14 15 16 15 13 16 16 17 14 14 17 16 16 15 17 19 17 18 18 17 18 16 16 16\n\
";

static TAIL: &str = "claim 326 326\n\
word 0 2 0 0 0 0 3\n\
top 328\n\
pot 0 0 5268 2690 0 0 0 0\n\
pot 0 1 15715 13288 10645 8258 5882 3004\n\
pot 0 2 2363 2363 2363 2363 2363 2363\n\
offset 328\n\
pot 0 0 5268 2690 0 0 0 0\n\
pot 0 1 15637 13222 10627 8240 5870 2986\n\
pot 0 2 2339 2339 2339 2339 2339 2339\n\
tree ( t t t t t t t t t t t t t ( t f l F L T ) t t t t )\n\
offset 327\n\
pot 0 0 5220 2690 0 0 0 0\n\
pot 0 1 15637 13222 10627 8240 5822 2986\n\
pot 0 2 2330 2330 2330 2330 2330 2330\n\
tree ( t t t t t t t t t t t t t ( t t T ) t t t t )\n\
end\n\
";

/// The last lines of the smallest certificate: no offset, and nothing above the top.
static LEAST: &str = "claim 1023 1023\n\
word 0 3 0 0 0 0 0\n\
top 1023\n\
end\n\
";

/// The certificate of the head and these lines.
fn parsed(rt: &impl Abort, alloc: Global, tail: &str) -> Cert {
    let text = format!(in alloc; "{HEAD}{tail}").expect(rt, "there is memory");
    parse(alloc, text.as_bytes()).expect(rt, "it is a certificate")
}

/// What was read is printed as it stood.
fn comes_back(rt: &impl Abort, alloc: Global, tail: &str) {
    let text = format!(in alloc; "{HEAD}{tail}").expect(rt, "there is memory");
    let cert = parsed(rt, alloc, tail);
    assert!(rt; cert.trees.len() <= usize::from(cert.top) + 1);
    let mut sink = MemSink::new(Vec::new(alloc), Vec::new(alloc));
    assert!(rt; print(&cert, &mut sink).is_ok());
    assert_eq!(rt; sink.bytes(), text.as_bytes());
}

#[test]
fn printed(rt: HostRuntime) {
    comes_back(&rt, rt.alloc(), LEAST);
    comes_back(&rt, rt.alloc(), TAIL);
}

#[test]
fn failed_write(rt: HostRuntime) {
    let alloc = rt.alloc();
    let cert = parsed(&rt, alloc, TAIL);
    assert!(rt; cert.trees.len() <= usize::from(cert.top) + 1);
    let text = format!(in alloc; "{HEAD}{TAIL}").expect(&rt, "there is memory");
    let failing = Vec::from_slice(alloc, &[1]).expect(&rt, "there is memory");
    let mut sink = MemSink::new(Vec::new(alloc), failing);
    assert!(rt; print(&cert, &mut sink).is_err());
    assert_eq!(rt; sink.bytes(), &text.as_bytes()[..512]);
}

// Texts of a program in another language, and what its check answers.

use crate::{ParseFault, parse};
use ac_claim::{Cert, No};
use std::alloc::Global;
use std::process::Abort;

static HEAD: &str = "ac3cert 1\n\
shape 1 1 0 0 - - 174\n\
raw 0 0 9 9 9 9 10 10 8 10 9 9 10 10 12 11 11 11 9 9 10 10 10 11 10 11 10 10 12 10 13 11 13 12 13 14 10 12 11 16 14 14 15 11 13 13 16 12 14 15 14 14 15 14 15 12 16 17 16 16 13 16 16 16 15 16 17 18 19 17 16 17 14 15 15\n\
raw 0 1 9 10 9 9 8 12 10 9 9 9 9 9 11 11 12 10 8 11 11 12 11 10 9 12 11 9 13 10 12 12 13 14 15 14 11 13 11 14 15 15 15 12 12 12 14 11 13 13 15 14 13 16 15 14 14 17 17 15 14 17 16 14 16 18 17 18 17 17 17 16 14 14 15\n\
raw 0 2 10 9 9 10 9 11 9 9 8 8 8 10 11 9 12 10 8 9 9 10 10 10 10 12 10 9 12 12 12 10 13 14 15 13 11 11 13 14 13 14 13 11 12 11 14 11 12 14 13 15 14 14 14 13 14 17 18 14 13 15 15 16 17 17 19 18 18 16 16 16 16 16 15\n\
raw 0 3 11 9 9 10 9 10 10 9 8 8 9 11 11 9 11 11 8 9 9 10 12 10 11 11 10 10 12 11 11 11 11 14 14 14 12 12 13 14 13 16 15 12 12 11 16 11 12 13 14 15 13 16 14 12 14 18 17 15 13 17 17 16 17 16 18 18 18 18 17 16 14 16 16\n\
raw 0 4 10 10 9 10 8 11 8 10 8 9 10 10 11 9 13 10 8 9 9 12 12 10 11 11 9 9 13 10 11 12 11 13 13 12 10 12 13 16 13 15 14 12 12 12 14 13 12 14 14 13 15 16 14 14 15 17 16 14 15 17 15 16 16 17 19 18 18 17 15 17 16 15 16\n\
raw 0 5 11 10 7 9 8 12 10 10 8 8 9 9 11 9 11 10 9 11 9 11 11 10 11 13 9 11 11 11 13 10 13 13 13 12 10 11 13 16 14 14 13 13 12 12 15 12 12 15 15 14 15 16 15 13 16 16 17 14 14 17 16 16 15 17 19 17 18 18 17 18 16 16 16\n\
claim 326 326\n\
word 0 2 0 0 0 0 3\n\
top 328\n\
pot 0 0 5268 2690 0 0 0 0\n\
pot 0 1 15715 13288 10645 8258 5882 3004\n\
pot 0 2 2363 2363 2363 2363 2363 2363\n\
offset 328\n\
pot 0 0 5268 2690 0 0 0 0\n\
pot 0 1 15637 13222 10627 8240 5870 2986\n\
pot 0 2 2339 2339 2339 2339 2339 2339\n\
";

static TREE: &str = "tree ( t t t t t t t t t t t t t ( t t T ) t t t t )\n";

static TAIL: &str = "offset 327\n\
pot 0 0 5220 2690 0 0 0 0\n\
pot 0 1 15637 13222 10627 8240 5822 2986\n\
pot 0 2 2330 2330 2330 2330 2330 2330\n\
tree ( t t t t t t t t t t t t t ( t t T ) t t t t )\n\
end\n\
";

/// What is answered to the head, a line of a tree, and these lines.
fn parsed(rt: &impl Abort, alloc: Global, tree: &str, tail: &str) -> Result<Cert, ParseFault> {
    let text = format!(in alloc; "{HEAD}{tree}{tail}").expect(rt, "there is memory");
    parse(alloc, text.as_bytes())
}

#[test]
fn certificate(rt: HostRuntime) {
    let cert = parsed(&rt, rt.alloc(), TREE, TAIL).expect(&rt, "it is a certificate");
    assert_eq!(rt; (cert.offset, cert.upper, cert.top), (326, 326, 328));
    assert_eq!(rt;
        (cert.shape.fscod, cert.shape.acmod, cert.shape.words),
        (1, 1, 174)
    );
    assert_eq!(rt; cert.raw.e[0][1][72], 15);
    assert_eq!(rt; cert.raw.e[0][1][73], 0);
    let words = &cert.assign.w[..];
    assert_eq!(rt; words[0].codes(), [2, 0, 0, 0, 0, 3]);
    assert_eq!(rt; words[6].codes(), [1, 0, 0, 0, 0, 0]);
    assert_eq!(rt; cert.trees.len(), 2);
}

#[test]
fn refused(rt: HostRuntime) {
    let alloc = rt.alloc();
    assert!(rt;
        matches!(
            parse(alloc, b""),
            Err(ParseFault::No(No::BadText { line: 1 }))
        )
    );
    let empty = parsed(&rt, alloc, "tree ( )\n", TAIL);
    assert!(rt; matches!(empty, Err(ParseFault::No(No::BadText { line: 19 }))));
    let cut = parsed(&rt, alloc, "tree ( t", "");
    assert!(rt; matches!(cut, Err(ParseFault::No(No::BadText { line: 19 }))));
    let deep = parsed(
        &rt,
        alloc,
        "tree ( ( ( ( ( ( ( ( ( ( ( ( ( ( ( ( ( ( ( ( ( ( ( ( ( ( ( ( ( ( ( ( ( ( ( ( ( ( ( ( ( ( ( f ) ) ) ) ) ) ) ) ) ) ) ) ) ) ) ) ) ) ) ) ) ) ) ) ) ) ) ) ) ) ) ) ) ) ) ) ) ) ) ) ) ) )\n",
        TAIL,
    );
    assert!(rt; matches!(deep, Err(ParseFault::No(No::Deep { line: 19 }))));
    let after = format!(in alloc; "{TAIL}end\n").expect(&rt, "there is memory");
    let twice = parsed(&rt, alloc, TREE, after.as_str());
    assert!(rt; matches!(twice, Err(ParseFault::No(No::BadText { line: 26 }))));
}

use super::*;
use crate::laws::word_laws;
use crate::run::runs;
use ac_base::{Run, run_laws};

#[test]
fn refused_word(rt: HostRuntime) {
    for codes in [
        [0, 1, 0, 0, 0, 0],
        [4, 0, 0, 0, 0, 0],
        [1, 0, 0, 0, 0, 4],
        [1, 0, 255, 0, 0, 0],
    ] {
        assert!(rt; Word::new(codes).is_none());
    }
    let word = Word::new([3, 0, 1, 0, 0, 2]).expect(&rt, "the codes are a word");
    assert_eq!(rt; word.code(0), 3);
    assert_eq!(rt; word.code(5), 2);
}

#[test]
fn first_and_last_word(rt: HostRuntime) {
    for (i, codes) in [
        (0, [1, 0, 0, 0, 0, 0]),
        (1, [1, 0, 0, 0, 0, 1]),
        (1024, [2, 0, 0, 0, 0, 0]),
        (1315, [2, 1, 0, 2, 0, 3]),
        (3071, [3, 3, 3, 3, 3, 3]),
    ] {
        assert!(rt; i <= 3071);
        assert!(rt; Word::new(codes) == Some(word_at(i)), "word {i}");
    }
    word_laws();
    run_laws();
}

#[test]
fn runs_of_words(rt: HostRuntime) {
    for (codes, count, first, last) in [
        ([3, 0, 0, 0, 0, 0], 1, (0, 6, 3), (0, 6, 3)),
        ([1, 0, 2, 0, 0, 0], 2, (0, 2, 1), (2, 6, 2)),
        ([1, 1, 1, 1, 1, 2], 6, (0, 1, 1), (5, 6, 2)),
    ] {
        let word = Word::new(codes).expect(&rt, "the codes are a word");
        let list = runs(&word);
        let items = list.as_slice();
        assert!(rt; items.len() == count && count > 0);
        let begin = items[0];
        let end = items[count - 1];
        assert!(rt; (begin.from, begin.to, begin.kind) == first);
        assert!(rt; (end.from, end.to, end.kind) == last);
    }
}

#[test]
fn words_of_channels(rt: HostRuntime) {
    let mut assign = Assign { w: [word_at(0); 7] };
    assign.w[3] = word_at(3071);
    assert!(rt; assign.w[2].code(0) == 1 && assign.w[3].code(5) == 3);
}

// The layout, against the values that the format's own text gives.
use queue_rule::{closes, kind_of, stretch_start, words_left, words_of};

#[test]
fn layout_as_the_format_says(rt: HostRuntime) {
    assert!(rt; stretch_start(0) == 1);
    assert!(rt; stretch_start(2) == 33_285);
    assert!(rt; stretch_start(32) == 532_545);
    assert!(rt; words_left(0) == 16_640 && words_left(16_641) == 0);
    // an add, a delete of a term with 13 bytes, a commit, a turn
    for (head, kind, words, closing) in [
        (0x1_0000_0000u64, 1u64, 1u64, false),
        (0x3_0000_000d, 3, 3, false),
        (0x6_0000_0000, 6, 1, true),
        (0x7_0000_0000, 7, 1, true),
    ] {
        assert!(rt; kind_of(head) == kind);
        assert!(rt; words_of(head) == words);
        assert!(rt; closes(head) == closing);
    }
}

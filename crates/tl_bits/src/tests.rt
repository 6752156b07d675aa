ghost use Rattle.std.specs.Prelude.{◌≡◌, ◌≤◌, ◌^◌};

use super::*;
use std::process::Abort;
use std::test::Fail;

// Each row has a time, a place among its words, and the word there.
fn assert_words<B: Bits>(rt: &impl Abort, bits: &mut B, words: u32, table: &[(u64, u32, u32)])
    requires words { B.words bits.old ≡ words }
    requires few { words ≤ 2 ^ 15 }
{
    for &(time, w, word) in table {
        assert!(rt; 1 <= time && time <= 1 << 30 && w < words);
        assert_eq!(rt; bits.word(time, w), word, "word {w} of time -{time}");
    }
}

// The first words of seed 0 and sample 0 are those of RFC 8439, A.1, test vector 1.
#[test]
fn each_time_has_the_next_word_of_the_first_block(rt: HostRuntime) {
    let onwards = [
        (1, 0, 0xade0b876),
        (2, 0, 0x903df1a0),
        (3, 0, 0xe56a5d40),
        (4, 0, 0x28bd8653),
    ];
    let backwards = [
        (4, 0, 0x28bd8653),
        (3, 0, 0xe56a5d40),
        (2, 0, 0x903df1a0),
        (1, 0, 0xade0b876),
    ];
    let mut bits = Numbered::new(0, 0, 1);
    assert_words(&rt, &mut bits, 1, &onwards);
    let mut bits = Numbered::new(0, 0, 1);
    assert_words(&rt, &mut bits, 1, &backwards);
}

#[test]
fn bits_of_five_corners(rt: HostRuntime) {
    let mut bits = Numbered::new(0, 0, 1);
    let words = [
        bits.word(1, 0),
        bits.word(2, 0),
        bits.word(3, 0),
        bits.word(4, 0),
    ];
    let table = [
        [0, 1, 1, 0, 1],
        [0, 0, 0, 0, 0],
        [0, 0, 0, 0, 0],
        [1, 1, 0, 0, 1],
    ];
    for (word, row) in words.iter().zip(&table) {
        let found = [
            word & 1,
            (word >> 1) & 1,
            (word >> 2) & 1,
            (word >> 3) & 1,
            (word >> 4) & 1,
        ];
        assert_eq!(rt; found, *row);
    }
}

// The words are by a program of RFC 8439's block function with a 64-bit counter and a 64-bit stream number.
// Their places lie on both sides of the first block, of the first four and of the first eight, and far on.
#[test]
fn words_of_another_seed_and_sample(rt: HostRuntime) {
    let table = [
        (1, 0, 0x61e9c455),
        (1, 2, 0x625ff149),
        (2, 0, 0x6d6ff0b4),
        (22, 0, 0x319fa51e),
        (22, 1, 0x882ead6e),
        (43, 2, 0x63cf0fd6),
        (44, 0, 0x6b46da0a),
        (1 << 30, 0, 0x014b443f),
        (1 << 30, 2, 0xe3d1f14e),
        (44, 0, 0x6b46da0a),
        (43, 2, 0x63cf0fd6),
        (23, 0, 0xefa42c6f),
        (22, 0, 0x319fa51e),
        (1, 0, 0x61e9c455),
    ];
    let mut bits = Numbered::new(0x0123456789abcdef, 0xfedcba98, 3);
    assert_words(&rt, &mut bits, 3, &table);
}

#[test]
fn the_last_word_of_all(rt: HostRuntime) {
    let mut bits = Numbered::new(u64::MAX, u32::MAX, 1 << 15);
    assert_eq!(rt; bits.word(1 << 30, (1 << 15) - 1), 0x23ceb8cc);
}

#[test]
fn a_list_gives_its_words_and_then_0(rt: HostRuntime) -> Result<(), Fail> {
    let table = [(2, 0, 10), (2, 1, 0), (1, 2, 9), (1, 0, 7), (1 << 30, 2, 0)];
    let mut bits = Listed::new(3, vec![in rt.alloc(); 7, 8, 9, 10]?);
    assert_words(&rt, &mut bits, 3, &table);
    Ok(())
}

// Only what threads may share and pass on can be moved by this.
fn moved<B: Bits + Send + Sync>(bits: B) -> B
    ensures { result ≡ bits }
{
    bits
}

#[test]
fn sources_may_go_to_threads(rt: HostRuntime) -> Result<(), Fail> {
    let mut numbered = moved(Numbered::new(0, 0, 1));
    assert_eq!(rt; numbered.word(1, 0), 0xade0b876);
    let mut listed = moved(Listed::new(1, vec![in rt.alloc(); 7]?));
    assert_eq!(rt; listed.word(1, 0), 7);
    Ok(())
}

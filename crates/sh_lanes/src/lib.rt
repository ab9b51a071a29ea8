//! Scans of words, four lanes at a time: where a word stands, where two slices differ, how many words are empty. And a
//! column of a table.
#![tactic(auto)]

ghost use Rattle.std.specs.Prelude.{◌≡◌, ◌==◌, ℕ, ◌+◌, ◌*◌, ◌<◌, ◌≤◌, length, not, MatchOption};
ghost use Rattle.std.specs.{List.{prefix_len}, Simd.Lanes.{chunk, zip2}};
ghost use Rattle.sh_lanes.specs.Scans.{count_empty, LacksWord, IsColumn, IsFirst, IsFirstDiffering};

use std::simd::prelude::*;

/// The least index whose word is `key`, and `None` exactly where there is none.
pub fn first_equal(keys: &[u64], key: u64) -> Option<usize>
    ensures { MatchOption result (LacksWord keys.now key) (λ i. IsFirst keys.now key i) }
{
    let mut at = 0;
    'fours: while keys.len() - at >= 4 {
        let lane = equal_lane(keys, at, key);
        if lane < 4 {
            return Some(at + lane);
        }
        at += 4;
    }
    for index in at..keys.len() {
        if keys[index] == key {
            return Some(index);
        }
    }
    None
}

// The first of the four words from `at` on that is `key`, and 4 where none is. Condition: there are four.
fn equal_lane(keys: &[u64], at: usize, key: u64) -> usize
    requires { at + 4 ≤ length keys.now }
    ensures { result ≡ prefix_len (λ k. not (k == key)) (chunk at 4 keys.now) }
{
    let lanes = u64x4::from_slice(&keys[at..]);
    let mask = lanes.simd_eq(u64x4::splat(key)).to_bitmask();
    if mask == 0 {
        4
    } else {
        mask.trailing_zeros() as usize
    }
}

/// The least index at which the slices differ, and `None` exactly where they agree. Condition: they have one length.
pub fn first_differing(a: &[u64], b: &[u64]) -> Option<usize>
    requires { length a.now ≡ length b.now }
    ensures { MatchOption result (a.now ≡ b.now) (λ i. IsFirstDiffering a.now b.now i) }
{
    let mut at = 0;
    'fours: while a.len() - at >= 4 {
        let lane = differing_lane(a, b, at);
        if lane < 4 {
            return Some(at + lane);
        }
        at += 4;
    }
    for index in at..a.len() {
        if a[index] != b[index] {
            return Some(index);
        }
    }
    None
}

// The first of the four places from `at` on at which the slices differ, and 4 where none is. Condition: both have four.
fn differing_lane(a: &[u64], b: &[u64], at: usize) -> usize
    requires a { at + 4 ≤ length a.now }
    requires b { at + 4 ≤ length b.now }
    ensures { result ≡ prefix_len (λ d. not d) (zip2 (λ x y. not (x == y)) (chunk at 4 a.now) (chunk at 4 b.now)) }
{
    let lanes = u64x4::from_slice(&a[at..]);
    let mask = lanes.simd_ne(u64x4::from_slice(&b[at..])).to_bitmask();
    if mask == 0 {
        4
    } else {
        mask.trailing_zeros() as usize
    }
}

/// How many words are 0.
pub fn count_empty(keys: &[u64]) -> usize
    ensures { result ≡ count_empty keys.now }
{
    let mut empty = 0;
    let mut at = 0;
    'fours: while keys.len() - at >= 4 {
        empty += empty_lanes(keys, at);
        at += 4;
    }
    for index in at..keys.len() {
        if keys[index] == 0 {
            empty += 1;
        }
    }
    empty
}

// How many of the four words from `at` on are 0. Condition: there are four.
fn empty_lanes(keys: &[u64], at: usize) -> usize
    requires { at + 4 ≤ length keys.now }
    ensures { result ≡ count_empty (chunk at 4 keys.now) }
{
    let lanes = u64x4::from_slice(&keys[at..]);
    let mask = lanes.simd_eq(u64x4::splat(0)).to_bitmask();
    mask.count_ones() as usize
}

/// Fills `out` with a column of the words: `out[i]` becomes `words[start + stride * i]`. Condition: each of these
/// lies in the words.
pub fn column(words: &[u64], start: usize, stride: usize, out: &mut [u64])
    requires { (i : ℕ) → i < length out.old → start + stride * i < length words.now }
    ensures column { IsColumn words.now start stride out.new }
    ensures as_long { length out.new ≡ length out.old }
{
    for index in 0..out.len() {
        out[index] = words[start + stride * index];
    }
}

#[cfg(test)]
mod tests {
    use super::*;

    // No word, one, below one lane, one lane, and lanes with and without a rest.
    const LENGTHS: [usize; 10] = [1, 2, 3, 4, 5, 8, 9, 64, 65, 67];

    // So many words 7, and 9 behind them.
    fn with_last(words: &mut [u64; 67], count: usize)
        requires { count < 67 }
    {
        *words = [7; 67];
        words[count] = 9;
    }

    #[test]
    fn the_last_word_of_any_length_is_found(rt: HostRuntime) {
        for length in LENGTHS {
            if length == 0 || length > 67 {
                assert!(rt; false, "a length");
                return;
            }
            let mut words = [0; 67];
            with_last(&mut words, length - 1);
            assert_eq!(rt; first_equal(&words[..length], 9), Some(length - 1));
            assert_eq!(rt; first_equal(&words[..length - 1], 9), None);
            let sevens = [7; 67];
            assert_eq!(rt;
                first_differing(&words[..length], &sevens[..length]),
                Some(length - 1)
            );
            assert_eq!(rt;
                first_differing(&words[..length - 1], &sevens[..length - 1]),
                None
            );
        }
    }

    #[test]
    fn a_word_is_found_at_its_least_index(rt: HostRuntime) {
        assert_eq!(rt; first_equal(&[], 3), None);
        assert_eq!(rt; first_equal(&[3], 3), Some(0));
        assert_eq!(rt; first_equal(&[1, 2, 3, 3, 5], 3), Some(2));
        assert_eq!(rt; first_equal(&[1, 2, 3, 3, 5], 4), None);
        assert_eq!(rt; first_equal(&[1, 2, 3, 4, 5, 6, 7, 5, 9], 5), Some(4));
        assert_eq!(rt; first_equal(&[1, 2, 3, 4, 5, 6, 7, 8, 9], 9), Some(8));
    }

    #[test]
    fn every_empty_word_is_counted(rt: HostRuntime) {
        assert_eq!(rt; count_empty(&[]), 0);
        assert_eq!(rt; count_empty(&[0]), 1);
        assert_eq!(rt; count_empty(&[0, 1, 0]), 2);
        assert_eq!(rt; count_empty(&[0, 1, 0, 2]), 2);
        assert_eq!(rt; count_empty(&[0, 1, 0, 2, 0]), 3);
        assert_eq!(rt; count_empty(&[0, 1, 0, 2, 0, 0, 0, 3]), 5);
        assert_eq!(rt; count_empty(&[0, 1, 0, 2, 0, 0, 0, 3, 0, 4]), 6);
        assert_eq!(rt; count_empty(&[0; 65]), 65);
        assert_eq!(rt; count_empty(&[7; 65]), 0);
    }

    #[test]
    fn slices_differ_at_the_least_index(rt: HostRuntime) {
        assert_eq!(rt; first_differing(&[], &[]), None);
        assert_eq!(rt; first_differing(&[1], &[2]), Some(0));
        assert_eq!(rt; first_differing(&[1, 2, 3, 4, 5], &[1, 2, 3, 4, 5]), None);
        assert_eq!(rt;
            first_differing(&[1, 2, 3, 4, 5], &[1, 2, 0, 4, 0]),
            Some(2)
        );
        assert_eq!(rt;
            first_differing(&[1, 2, 3, 4, 5, 6, 7, 8, 9], &[1, 2, 3, 4, 5, 6, 0, 8, 9]),
            Some(6)
        );
    }

    #[test]
    fn a_column_takes_every_second_word(rt: HostRuntime) {
        let mut out = [0; 2];
        column(&[10, 11, 12, 13, 14], 1, 2, &mut out);
        assert_eq!(rt; out, [11, 13]);
        column(&[10, 11, 12, 13, 14], 4, 2, &mut out[..1]);
        assert_eq!(rt; out, [14, 13]);
    }

    #[test]
    fn a_column_of_stride_1_is_the_words(rt: HostRuntime) {
        let mut out = [0; 3];
        column(&[10, 11, 12, 13, 14], 1, 1, &mut out);
        assert_eq!(rt; out, [11, 12, 13]);
        column(&[10, 11, 12, 13, 14], 5, 1, &mut out[..0]);
        assert_eq!(rt; out, [11, 12, 13]);
    }

    // The keys of two entries of 4 and of 11 words behind a header of 6.
    #[test]
    fn a_column_of_the_stride_of_an_entry_is_its_keys(rt: HostRuntime) {
        let mut out = [0; 2];
        column(
            &[0, 1, 2, 3, 4, 5, 6, 7, 8, 9, 10, 11, 12, 13],
            7,
            4,
            &mut out,
        );
        assert_eq!(rt; out, [7, 11]);
        column(
            &[
                0, 1, 2, 3, 4, 5, 6, 7, 8, 9, 10, 11, 12, 13, 14, 15, 16, 17, 18, 19, 20, 21, 22,
                23, 24, 25, 26, 27, 28,
            ],
            7,
            11,
            &mut out,
        );
        assert_eq!(rt; out, [7, 18]);
    }
}

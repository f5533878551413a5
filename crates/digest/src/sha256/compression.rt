//! The compression of one block, section 6.2.2. For speed the schedule is held as a window of 16 words, and sixteen rounds
//! at a time are written out.
ghost use Rattle.std.specs.Prelude.{◌≡◌, ◌≤◌};
ghost use Rattle.digest.specs.Sha256.{round_of, sum_words, compressed};
ghost use Rattle.digest.specs.Parts.{scheduled_from, NextWords, rounds_from};

use super::functions::{
    big_sigma_0, big_sigma_1, choose, constant, majority, small_sigma_0, small_sigma_1,
};
use std::array;

fn scheduled(w16: u32, w15: u32, w7: u32, w2: u32) -> u32
    ensures { result ≡ scheduled_from w16 w15 w7 w2 }
{
    small_sigma_1(w2)
        .wrapping_add(w7)
        .wrapping_add(small_sigma_0(w15))
        .wrapping_add(w16)
}

#[tactic(auto, unfolding(crate::specs::Sha256::round_of))]
fn round(v: [u32; 8], k: u32, w: u32) -> [u32; 8]
    ensures { result ≡ round_of k w v }
{
    let [a, b, c, d, e, f, g, h] = v;
    let t1 = h
        .wrapping_add(big_sigma_1(e))
        .wrapping_add(choose(e, f, g))
        .wrapping_add(k)
        .wrapping_add(w);
    let t2 = big_sigma_0(a).wrapping_add(majority(a, b, c));
    [t1.wrapping_add(t2), a, b, c, d.wrapping_add(t1), e, f, g]
}

// The first sixteen rounds, under the words of the block.
// Written out, as `next_rounds` is: so a block takes the time of plain C, and as loops 1.15 to 1.18 of it.
// `SITE` has no meaning but to make a copy for each place that compresses: the compiler puts a large function in line
// only where it has one caller.
#[tactic(auto, unfolding(crate::specs::Parts::rounds_from))]
fn first_rounds<const SITE: u8>(v: [u32; 8], w: [u32; 16]) -> [u32; 8]
    ensures { result ≡ rounds_from 0 16 w v }
{
    let v0 = round(v, constant(0), w[0]);
    let v1 = round(v0, constant(1), w[1]);
    let v2 = round(v1, constant(2), w[2]);
    let v3 = round(v2, constant(3), w[3]);
    let v4 = round(v3, constant(4), w[4]);
    let v5 = round(v4, constant(5), w[5]);
    let v6 = round(v5, constant(6), w[6]);
    let v7 = round(v6, constant(7), w[7]);
    let v8 = round(v7, constant(8), w[8]);
    let v9 = round(v8, constant(9), w[9]);
    let v10 = round(v9, constant(10), w[10]);
    let v11 = round(v10, constant(11), w[11]);
    let v12 = round(v11, constant(12), w[12]);
    let v13 = round(v12, constant(13), w[13]);
    let v14 = round(v13, constant(14), w[14]);
    let v15 = round(v14, constant(15), w[15]);
    v15
}

// Sixteen words of the schedule, and the working variables after the rounds under them.
#[derive(Clone, Copy)]
struct Sixteen {
    words: [u32; 16],
    working: [u32; 8],
}

// The words of the schedule after the 16 of `w`, and the rounds from `t` on under them. Written out: see `first_rounds`.
#[tactic(auto, unfolding(crate::specs::Parts::rounds_from))]
fn next_rounds<const SITE: u8>(v: [u32; 8], w: [u32; 16], t: usize) -> Sixteen
    requires { t ≤ 48 }
    ensures words { NextWords w result.words }
    ensures rounds { result.working ≡ rounds_from t 16 result.words v }
{
    let n0 = scheduled(w[0], w[1], w[9], w[14]);
    let v0 = round(v, constant(t), n0);
    let n1 = scheduled(w[1], w[2], w[10], w[15]);
    let v1 = round(v0, constant(t + 1), n1);
    let n2 = scheduled(w[2], w[3], w[11], n0);
    let v2 = round(v1, constant(t + 2), n2);
    let n3 = scheduled(w[3], w[4], w[12], n1);
    let v3 = round(v2, constant(t + 3), n3);
    let n4 = scheduled(w[4], w[5], w[13], n2);
    let v4 = round(v3, constant(t + 4), n4);
    let n5 = scheduled(w[5], w[6], w[14], n3);
    let v5 = round(v4, constant(t + 5), n5);
    let n6 = scheduled(w[6], w[7], w[15], n4);
    let v6 = round(v5, constant(t + 6), n6);
    let n7 = scheduled(w[7], w[8], n0, n5);
    let v7 = round(v6, constant(t + 7), n7);
    let n8 = scheduled(w[8], w[9], n1, n6);
    let v8 = round(v7, constant(t + 8), n8);
    let n9 = scheduled(w[9], w[10], n2, n7);
    let v9 = round(v8, constant(t + 9), n9);
    let n10 = scheduled(w[10], w[11], n3, n8);
    let v10 = round(v9, constant(t + 10), n10);
    let n11 = scheduled(w[11], w[12], n4, n9);
    let v11 = round(v10, constant(t + 11), n11);
    let n12 = scheduled(w[12], w[13], n5, n10);
    let v12 = round(v11, constant(t + 12), n12);
    let n13 = scheduled(w[13], w[14], n6, n11);
    let v13 = round(v12, constant(t + 13), n13);
    let n14 = scheduled(w[14], w[15], n7, n12);
    let v14 = round(v13, constant(t + 14), n14);
    let n15 = scheduled(w[15], n0, n8, n13);
    let v15 = round(v14, constant(t + 15), n15);
    let words = [
        n0, n1, n2, n3, n4, n5, n6, n7, n8, n9, n10, n11, n12, n13, n14, n15,
    ];
    Sixteen {
        words,
        working: v15,
    }
}

fn sum_words(x: [u32; 8], y: [u32; 8]) -> [u32; 8]
    ensures { result ≡ sum_words x y }
{
    array::from_fn(|i| x[i].wrapping_add(y[i]))
}

/// The hash value after `state`, for the 16 words of a block.
pub(crate) fn compress<const SITE: u8>(state: [u32; 8], block: [u32; 16]) -> [u32; 8]
    ensures { result ≡ compressed state block }
{
    let mut w = block;
    let mut v = first_rounds::<SITE>(state, block);
    // Counted: over `[16, 32, 48]` stretching takes 1.03 of plain C's time, counted 1.00.
    for i in 1..4 {
        let next = next_rounds::<SITE>(v, w, 16 * i);
        w = next.words;
        v = next.working;
    }
    sum_words(state, v)
}

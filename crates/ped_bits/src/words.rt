//! Operations on slices of words of equal length: in groups of eight lanes, and word by word after the last group.

ghost use Rattle.std.specs.Prelude.{◌≡◌, ◌⊎◌, ℕ, ◌+◌, ◌*◌, ◌/◌, ◌<◌, ◌≤◌, ◌^◌, bit_and, bit_or, length, IsTrue, ◌↔◌};
ghost use Rattle.std.specs.Int.{bit_not, w64};
ghost use Rattle.ped_bits.specs.Words.{word};

use crate::lanes::{and_not_lanes, is_subset_lanes, meets_lanes, or_lanes};
use std::simd::prelude::*;

/// How many words are in whole groups of eight.
fn in_groups(words: usize) -> usize
    ensures value { result ≡ 8 * (words / 8) }
    ensures within { result ≤ words }
{
    words / 8 * 8
}

/// Sets in `target` the bits of `source`.
pub(crate) fn or_words(source: &[u64], target: &mut [u64])
    requires { length source.now ≡ length target.old }
    ensures { (j : ℕ) → word target.new j ≡ bit_or (word target.old j) (word source.now j) }
{
    or_groups(source, target);
    for k in in_groups(target.len())..target.len() {
        target[k] |= source[k];
    }
}

/// Sets in the whole groups of `target` the bits of `source`.
fn or_groups(source: &[u64], target: &mut [u64])
    requires { length source.now ≡ length target.old }
    ensures done { (j : ℕ) → j < 8 * (length target.old / 8) → word target.new j ≡ bit_or (word target.old j) (word source.now j) }
    ensures left { (j : ℕ) → 8 * (length target.old / 8) ≤ j → word target.new j ≡ word target.old j }
{
    for group in 0..target.len() / 8 {
        or_group(source, target, 8 * group);
    }
}

/// Sets in the eight words of `target` from this place on the bits of `source`.
fn or_group(source: &[u64], target: &mut [u64], at: usize)
    requires source { at + 8 ≤ length source.now }
    requires target { at + 8 ≤ length target.old }
    ensures done { (j : ℕ) → at ≤ j → j < at + 8 → word target.new j ≡ bit_or (word target.old j) (word source.now j) }
    ensures before { (j : ℕ) → j < at → word target.new j ≡ word target.old j }
    ensures behind { (j : ℕ) → at + 8 ≤ j → word target.new j ≡ word target.old j }
{
    let own = Simd::<u64, 8>::from_slice(&target[at..]);
    let other = Simd::<u64, 8>::from_slice(&source[at..]);
    or_lanes(own, other).copy_to_slice(&mut target[at..]);
}

/// Clears in `target` the bits of `source`.
pub(crate) fn clear_words(source: &[u64], target: &mut [u64])
    requires { length source.now ≡ length target.old }
    ensures cleared { (j : ℕ) → word target.new j ≡ bit_and (word target.old j) (bit_not w64 (word source.now j)) }
    ensures small { (j : ℕ) → word source.now j < 2 ^ 64 }
{
    clear_groups(source, target);
    for k in in_groups(target.len())..target.len() {
        target[k] &= !source[k];
    }
}

/// Clears in the whole groups of `target` the bits of `source`.
fn clear_groups(source: &[u64], target: &mut [u64])
    requires { length source.now ≡ length target.old }
    ensures done { (j : ℕ) → j < 8 * (length target.old / 8) → word target.new j ≡ bit_and (word target.old j) (bit_not w64 (word source.now j)) }
    ensures left { (j : ℕ) → 8 * (length target.old / 8) ≤ j → word target.new j ≡ word target.old j }
{
    for group in 0..target.len() / 8 {
        clear_group(source, target, 8 * group);
    }
}

/// Clears in the eight words of `target` from this place on the bits of `source`.
fn clear_group(source: &[u64], target: &mut [u64], at: usize)
    requires source { at + 8 ≤ length source.now }
    requires target { at + 8 ≤ length target.old }
    ensures done { (j : ℕ) → at ≤ j → j < at + 8 → word target.new j ≡ bit_and (word target.old j) (bit_not w64 (word source.now j)) }
    ensures before { (j : ℕ) → j < at → word target.new j ≡ word target.old j }
    ensures behind { (j : ℕ) → at + 8 ≤ j → word target.new j ≡ word target.old j }
{
    let own = Simd::<u64, 8>::from_slice(&target[at..]);
    let other = Simd::<u64, 8>::from_slice(&source[at..]);
    and_not_lanes(own, other).copy_to_slice(&mut target[at..]);
}

/// Whether some word of both has a common bit.
pub(crate) fn words_meet(left: &[u64], right: &[u64]) -> bool
    requires { length left.now ≡ length right.now }
    ensures common { IsTrue result ↔ ((j : ℕ) × ¬ (bit_and (word left.now j) (word right.now j) ≡ 0)) }
    ensures small { (j : ℕ) → word left.now j < 2 ^ 64 }
{
    if groups_meet(left, right) {
        return true;
    }
    for k in in_groups(left.len())..left.len() {
        if left[k] & right[k] != 0 {
            return true;
        }
    }
    false
}

/// Whether some word of the whole groups of both has a common bit.
fn groups_meet(left: &[u64], right: &[u64]) -> bool
    requires { length left.now ≡ length right.now }
    ensures { IsTrue result ↔ ((j : ℕ) × (j < 8 * (length left.now / 8)) × ¬ (bit_and (word left.now j) (word right.now j) ≡ 0)) }
{
    for group in 0..left.len() / 8 {
        if group_meets(left, right, 8 * group) {
            return true;
        }
    }
    false
}

/// Whether some of the eight words from this place on has a common bit.
fn group_meets(left: &[u64], right: &[u64], at: usize) -> bool
    requires left { at + 8 ≤ length left.now }
    requires right { at + 8 ≤ length right.now }
    ensures { IsTrue result ↔ ((j : ℕ) × (at ≤ j) × (j < at + 8) × ¬ (bit_and (word left.now j) (word right.now j) ≡ 0)) }
{
    let own = Simd::<u64, 8>::from_slice(&left[at..]);
    let other = Simd::<u64, 8>::from_slice(&right[at..]);
    meets_lanes(own, other)
}

/// Whether each word of `inner` has no bit that the word of `outer` doesn't have.
pub(crate) fn words_within(inner: &[u64], outer: &[u64]) -> bool
    requires { length inner.now ≡ length outer.now }
    ensures within { IsTrue result ↔ ((j : ℕ) → bit_and (word inner.now j) (bit_not w64 (word outer.now j)) ≡ 0) }
    ensures small_inner { (j : ℕ) → word inner.now j < 2 ^ 64 }
    ensures small_outer { (j : ℕ) → word outer.now j < 2 ^ 64 }
{
    if !groups_within(inner, outer) {
        return false;
    }
    for k in in_groups(inner.len())..inner.len() {
        if inner[k] & !outer[k] != 0 {
            return false;
        }
    }
    true
}

/// Whether each word of the whole groups of `inner` has no bit that the word of `outer` doesn't have.
fn groups_within(inner: &[u64], outer: &[u64]) -> bool
    requires { length inner.now ≡ length outer.now }
    ensures { IsTrue result ↔ ((j : ℕ) → j < 8 * (length inner.now / 8) → bit_and (word inner.now j) (bit_not w64 (word outer.now j)) ≡ 0) }
{
    for group in 0..inner.len() / 8 {
        if !group_within(inner, outer, 8 * group) {
            return false;
        }
    }
    true
}

/// Whether each of the eight words of `inner` from this place on has no bit that the word of `outer` doesn't have.
fn group_within(inner: &[u64], outer: &[u64], at: usize) -> bool
    requires inner { at + 8 ≤ length inner.now }
    requires outer { at + 8 ≤ length outer.now }
    ensures { IsTrue result ↔ ((j : ℕ) → at ≤ j → j < at + 8 → bit_and (word inner.now j) (bit_not w64 (word outer.now j)) ≡ 0) }
{
    let own = Simd::<u64, 8>::from_slice(&inner[at..]);
    let other = Simd::<u64, 8>::from_slice(&outer[at..]);
    is_subset_lanes(own, other)
}

// Sums from the front, of tokens and of the products of two, up to the first fault. They are made part by part: where
// the sum so far isn't far from 0, and all tokens of the next part are near 0, none of its steps can leave i64, and so
// none has to be looked at. A processor compares and adds such tokens several at a time.
ghost use Rattle.std.specs.Prelude.{◌≡◌, ◌≤◌, ◌<◌, ◌+◌, pos, length, reverse, zip, Ok};
ghost use Rattle.std.specs.Bool.{OnTrue};
ghost use Rattle.kernel_gate.specs.Tokens.{running, plus_product, total, dot_product};
ghost use Rattle.kernel_set.specs.Near.{AreNear, IsCentral, plus};

use crate::maps::Plus;
use crate::tokens::{checked_product, checked_sum, fold};
use kernel_gate::KernelFault;

/// The most tokens that are added at once.
pub(crate) const PART: usize = 64;

/// A token below this, and above its negative, is near 0.
const NEAR: i64 = 134_217_728;

/// To a sum below this, and above its negative, a part of tokens near 0 can be added, and the products of two such parts.
const CENTRAL: i64 = 4_611_686_018_427_387_904;

/// Whether all tokens are near 0. It looks at all of them, so that several are compared at a time.
#[inline(always)]
pub(crate) fn are_near(x: &[i64]) -> bool
    ensures { OnTrue result (AreNear x.now) }
{
    let mut near = true;
    for t in x {
        near = near & (*t < NEAR) & (*t > -NEAR);
    }
    near
}

fn is_central(all: i64) -> bool
    ensures { OnTrue result (IsCentral all) }
{
    all < CENTRAL && all > -CENTRAL
}

/// A partial sum and tokens near 0.
#[inline(always)]
fn near_sum(start: i64, x: &[i64]) -> i64
    requires start { IsCentral start }
    requires near { AreNear x.now }
    requires few { length x.now ≤ 64 }
    ensures { running plus start x.now ≡ Ok result }
{
    let mut all = start;
    for i in 0..x.len() {
        all += x[i];
    }
    all
}

/// A partial sum and the products of tokens near 0.
#[inline(always)]
fn near_products(start: i64, x: &[i64], z: &[i64]) -> i64
    requires start { IsCentral start }
    requires first { AreNear x.now }
    requires second { AreNear z.now }
    requires few { length x.now ≤ 64 }
    requires same { length x.now ≡ length z.now }
    ensures { running plus_product start (zip x.now z.now) ≡ Ok result }
{
    let mut all = start;
    for i in 0..x.len() {
        all += x[i] * z[i];
    }
    all
}

/// The sum of the products of taps near 0 and of the tokens of a window near 0, the first tap with the newest token.
#[inline(always)]
pub(crate) fn near_filtered(taps: &[i64], tokens: &[i64]) -> i64
    requires taps { AreNear taps.now }
    requires tokens { AreNear tokens.now }
    requires few { length taps.now ≤ 64 }
    requires same { length taps.now ≡ length tokens.now }
    ensures { dot_product taps.now (reverse tokens.now) ≡ Ok result }
{
    let mut all = 0;
    for j in 0..taps.len() {
        all += taps[j] * tokens[taps.len() - 1 - j];
    }
    all
}

/// Where the part of a list from a place on ends.
fn end_of_part(from: usize, len: usize) -> usize
    requires { from < len }
    ensures within { result ≤ len }
    ensures more { from < result }
    ensures few { result ≤ from + 64 }
{
    if len - from > PART { from + PART } else { len }
}

/// A partial sum and the product of two tokens.
#[inline(always)]
pub(crate) fn accumulated(all: i64, x: i64, z: i64) -> Result<i64, KernelFault>
    ensures { result ≡ plus_product all (x, z) }
{
    match checked_product(x, z) {
        Ok(y) => checked_sum(all, y),
        Err(fault) => Err(fault),
    }
}

/// A partial sum and the products of tokens at one place, each step looked at.
fn checked_products(start: i64, x: &[i64], z: &[i64]) -> Result<i64, KernelFault>
    requires { length x.now ≡ length z.now }
    ensures { result ≡ running plus_product start (zip x.now z.now) }
{
    let mut all = start;
    for i in 0..x.len() {
        match accumulated(all, x[i], z[i]) {
            Ok(y) => all = y,
            Err(fault) => return Err(fault),
        }
    }
    Ok(all)
}

/// A partial sum and the tokens of a part.
#[inline(always)]
fn part_added(all: i64, x: &[i64]) -> Result<i64, KernelFault>
    requires { length x.now ≤ 64 }
    ensures { result ≡ running plus all x.now }
{
    if is_central(all) && are_near(x) {
        return Ok(near_sum(all, x));
    }
    fold(&Plus, all, x)
}

/// A partial sum and the products of the tokens of two parts.
#[inline(always)]
fn parts_multiplied(all: i64, x: &[i64], z: &[i64]) -> Result<i64, KernelFault>
    requires few { length x.now ≤ 64 }
    requires same { length x.now ≡ length z.now }
    ensures { result ≡ running plus_product all (zip x.now z.now) }
{
    if is_central(all) && are_near(x) && are_near(z) {
        return Ok(near_products(all, x, z));
    }
    checked_products(all, x, z)
}

/// The sum of the tokens from the front.
pub(crate) fn total(x: &[i64]) -> Result<i64, KernelFault>
    ensures { result ≡ total x.now }
{
    let mut all = 0;
    let mut from = 0;
    while from < x.len() {
        let to = end_of_part(from, x.len());
        match part_added(all, &x[from..to]) {
            Ok(y) => all = y,
            Err(fault) => return Err(fault),
        }
        from = to;
    }
    Ok(all)
}

/// The sum of the products of tokens at one place, from the front.
pub(crate) fn products(x: &[i64], z: &[i64]) -> Result<i64, KernelFault>
    requires { length x.now ≡ length z.now }
    ensures { result ≡ dot_product x.now z.now }
{
    let mut all = 0;
    let mut from = 0;
    while from < x.len() {
        let to = end_of_part(from, x.len());
        match parts_multiplied(all, &x[from..to], &z[from..to]) {
            Ok(y) => all = y,
            Err(fault) => return Err(fault),
        }
        from = to;
    }
    Ok(all)
}

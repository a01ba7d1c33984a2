// 02, CR 9: the parity of a message's 81 symbols, by a walk along the ring of parity symbols.
#![tactic(auto)]

ghost use Rattle.std.specs.Prelude.{◌≡◌, ◌<◌, slice_index};
ghost use Rattle.bits.specs.Table.{table};
ghost use Rattle.field64.specs.Field.{product};
ghost use Rattle.one_parity.specs.OneParity.{IsParity};
ghost use Rattle.parity_making.specs.Walk.{carries, turns, adds, added, walked, ring_of};

mod tables;

use field64::padded::{padded_log, padded_power};
use std::array;
use tables::{carry, link, turn};

// The product of two elements, by logarithms.
fn times(a: u8, b: u8) -> u8
    ensures { result ≡ product a b }
{
    padded_power(padded_log(a).wrapping_add(padded_log(b)))
}

// What the message adds at turn k.
fn adds_at(m: &[u8; 81], k: usize) -> u8
    requires { k < 81 }
    ensures { result ≡ adds m.now k }
{
    let a = times(link(4 * k + 2), m[link(4 * k) as usize]);
    let b = times(link(4 * k + 3), m[link(4 * k + 1) as usize]);
    a ^ b
}

// What the message adds at each turn.
fn all_added(m: &[u8; 81]) -> [u8; 81]
    ensures { result ≡ added m.now }
{
    array::from_fn(|k| adds_at(m, k))
}

// Once around from x: the parity symbol at the start and after each of the 81 turns.
fn walk(d: &[u8; 81], x: u8) -> [u8; 82]
    ensures { result ≡ table (walked carries d.now x) 82 }
{
    let mut out = [x; 82];
    for k in 0..81usize {
        out[k + 1] = d[k] ^ times(carry(k), out[k]);
    }
    out
}

// The parity symbols along the ring: once around from 0 tells where the walk has to start to come back to its start.
fn around(d: &[u8; 81]) -> [u8; 82]
    ensures { result ≡ ring_of carries d.now }
{
    let once = walk(d, 0);
    let start = times(34, once[81]);
    walk(d, start)
}

// The parity symbols in their order.
fn in_order(y: &[u8; 82]) -> [u8; 81]
    ensures { result ≡ table (λ j. slice_index y.now (slice_index turns j)) 81 }
{
    array::from_fn(|j| y[turn(j) as usize])
}

// The parity of 81 message symbols, of which the six low bits count: the only one there is.
pub fn parity_of(m: [u8; 81]) -> [u8; 81]
    ensures { IsParity m result }
{
    let d = all_added(&m);
    let y = around(&d);
    in_order(&y)
}

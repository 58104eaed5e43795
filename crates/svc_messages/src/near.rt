//! The known words that are nearest to one that isn't known.

ghost use Rattle.std.specs.Prelude.{◌<◌, ◌≤◌, length, OnOk, IfSome, IsTrue, string_bytes};
ghost use Rattle.std.specs.List.{list_all};
ghost use Rattle.svc_messages.specs.Messages.{is_plain, ArePlain, IsMessage};

use crate::pieces::{Piece, put};
use crate::spelling::behind_shared;
use std::alloc::Global;
use svc_base::NoMemory;

/// How many bytes of a word are compared with the known ones.
const COMPARED: usize = 60;

/// How many known words are named at most.
const NAMED: usize = 3;

/// A known word, and how near it is to another one.
#[derive(Clone, Copy)]
pub struct Near {
    pub name: &'static str,
    /// The greater, the nearer.
    pub nearness: usize,
    ghost plain: { IsTrue (list_all is_plain name.now) },
}

/// How many bytes both begin with.
fn shared_front(a: &[u8], b: &[u8]) -> usize
    ensures { result ≤ length a.now }
{
    let (left, _) = behind_shared(a, b);
    a.len() - left.len()
}

/// The most bytes, one after the other, with which the first begins and that stand in the second.
fn shared_from(a: &[u8], b: &[u8]) -> usize
    ensures { result ≤ length a.now }
{
    let mut most = 0usize;
    for k in 0..b.len() {
        most = most.max(shared_front(a, &b[k..]));
    }
    most
}

/// The most bytes, one after the other, that stand in both.
fn shared_stretch(a: &[u8], b: &[u8]) -> usize
    ensures { result ≤ length a.now }
{
    let mut most = 0usize;
    for k in 0..a.len() {
        most = most.max(shared_from(&a[k..], b));
    }
    most
}

/// How much of both words the longest stretch is that stands in both, in thousandths.
fn nearness(a: &[u8], b: &[u8]) -> usize {
    let a = &a[..a.len().min(COMPARED)];
    let both = a.len().saturating_add(b.len()).max(1);
    shared_stretch(a, b) * 2000 / both
}

/// Adds known words, with their nearness to the word.
pub(crate) fn add_near(
    near: &mut Vec<Near>,
    word: &[u8],
    known: &[&'static str],
) -> Result<(), NoMemory>
    requires { ArePlain known.now }
{
    for name in known {
        let nearness = nearness(word, name.as_bytes());
        near.push(Near { name, nearness })?;
    }
    Ok(())
}

/// The place of the first one that is the nearest, and near at all.
fn nearest_at(near: &[Near]) -> Option<usize>
    ensures { IfSome result (λ k. k < length near.now) }
{
    let mut found = None;
    let mut most = 0usize;
    for k in 0..near.len() {
        if near[k].nearness > most {
            most = near[k].nearness;
            found = Some(k);
        }
    }
    found
}

/// Puts the nearest of the known words behind a message: at most three, none of them less than half as near
/// as the first. `NoMemory` where there is none for it.
pub fn put_near(alloc: Global, text: &mut String, near: &mut [Near]) -> Result<(), NoMemory>
    ensures { OnOk result (IsMessage (string_bytes text.old) → IsMessage (string_bytes text.new)) }
{
    let mut least = 0usize;
    for _ in 0..NAMED {
        let Some(k) = nearest_at(near) else {
            return Ok(());
        };
        if near[k].nearness < least {
            return Ok(());
        }
        least = least.max(near[k].nearness / 2);
        put(alloc, text, &[Piece::Text(" "), Piece::Text(near[k].name)])?;
        near[k].nearness = 0;
    }
    Ok(())
}

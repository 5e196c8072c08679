//! Which declarations win.

ghost use Rattle.std.specs.Prelude.{◌≡◌, ℕ, ◌++◌, [], cond, List, map, IfOk, OnOk, None, Some};
ghost use Rattle.std.specs.Str.{bytes_eq};
ghost use Rattle.std.specs.Ordering.{nat_cmp};
ghost use Rattle.std.specs.Cmp.Lexicographic.{slice_cmp};
ghost use Rattle.std.specs.BTreeMap.{get_by};
ghost use Rattle.cascade_match.specs.Winning.{rank_of, candidate_of, wins, wins_from};
ghost use Rattle.cascade_match.specs.Tops.{ranked_seen, better, top, is_at_place};

use crate::blocks::{Block, Decl};
use sheet_reader::Origin;
use std::alloc::{AllocError, Global};
use std::collections::BTreeMap;

/// A declaration's name and rank.
#[derive(Clone, Copy)]
pub struct Ranked<'a> {
    pub name: &'a str,
    pub rank: u8,
}

/// The best declaration of a name so far: its rank and its place.
#[derive(Clone, Copy)]
pub struct Top {
    pub rank: u8,
    pub place: usize,
}

/// For each declaration of the blocks, one behind the other, whether it wins: whether it is the greatest of its name, by rank
/// and then by place. The blocks come in the order of `matched`, with the inline style last. In time n log n.
pub fn winners(alloc: Global, blocks: &[Block]) -> Result<Vec<bool>, AllocError>
    ensures { IfOk result (λ v. v.items ≡ wins blocks.now) }
{
    let mut all = Vec::new(alloc);
    for block in blocks {
        rank_all(block.origin, block.declarations.as_slice(), &mut all)?;
    }
    winners_of(alloc, all.as_slice())
}

fn rank_of(origin: Origin, important: bool) -> u8
    ensures { result ≡ rank_of origin important }
{
    match (origin, important) {
        (Origin::UserAgent, false) => 0,
        (Origin::Regular, false) => 1,
        (Origin::Regular, true) => 2,
        (Origin::UserAgent, true) => 3,
    }
}

fn rank_all<'a>(
    origin: Origin,
    declarations: &'a [Decl],
    all: &mut Vec<Ranked<'a>>,
) -> Result<(), AllocError>
    ensures { OnOk result (map ranked_seen all.new.items ≡ map ranked_seen all.old.items ++ map (candidate_of origin) declarations.now) }
{
    for declaration in declarations {
        all.push(Ranked {
            name: declaration.name.as_str(),
            rank: rank_of(origin, declaration.important),
        })?;
    }
    Ok(())
}

fn winners_of(alloc: Global, all: &[Ranked<'_>]) -> Result<Vec<bool>, AllocError>
    ensures { IfOk result (λ v. v.items ≡ wins_from [] (map ranked_seen all.now)) }
{
    let tops = tops_of(alloc, all)?;
    let mut won = Vec::new(alloc);
    for i in 0..all.len() {
        won.push(is_top(&tops, all[i].name, i))?;
    }
    Ok(won)
}

fn is_top(tops: &BTreeMap<&str, Top>, name: &str, i: usize) -> bool
    ensures { result ≡ is_at_place (get_by (λ k. slice_cmp nat_cmp name.now k.now) tops.now) i }
{
    match tops.get(name) {
        Some(top) => top.place == i,
        None => false,
    }
}

/// The best of each name.
fn tops_of<'a>(alloc: Global, all: &[Ranked<'a>]) -> Result<BTreeMap<&'a str, Top>, AllocError>
    ensures { IfOk result (λ tops. (q : List ℕ) → get_by (λ k. slice_cmp nat_cmp q k.now) tops ≡ top q None 0 (map ranked_seen all.now)) }
{
    let mut tops = BTreeMap::new(alloc);
    for i in 0..all.len() {
        let ranked = all[i];
        let best = tops.get(ranked.name).copied();
        put_top(ranked.name, better(best, i, ranked.rank), &mut tops)?;
    }
    Ok(tops)
}

fn put_top<'a>(name: &'a str, top: Top, tops: &mut BTreeMap<&'a str, Top>) -> Result<(), AllocError>
    ensures { OnOk result ((q : List ℕ) → get_by (λ k. slice_cmp nat_cmp q k.now) tops.new
        ≡ cond (bytes_eq name.now q) (Some top) (get_by (λ k. slice_cmp nat_cmp q k.now) tops.old)) }
{
    match tops.insert(name, top) {
        Ok(_) => Ok(()),
        Err(_) => Err(AllocError),
    }
}

/// The best after one of this rank at place `i`: a later one counts unless its rank is lower.
fn better(best: Option<Top>, i: usize, rank: u8) -> Top
    ensures { result ≡ better best i rank }
{
    match best {
        Some(top) => {
            if rank < top.rank {
                top
            } else {
                Top { rank, place: i }
            }
        }
        None => Top { rank, place: i },
    }
}

//! Counts whose running sums are found fast.

ghost use Rattle.std.specs.Prelude.{◌≡◌, ◌+◌, ◌-◌, ◌*◌, ◌/◌, ◌<◌, ◌≤◌, ◌^◌, length, IfOk, replicate, slice_set, slice_index, sum, take, drop};
ghost use Rattle.dcsp_common.specs.Limits.{most};
ghost use Rattle.dcsp_common.specs.declared.limits.Which.TheVariants.{Variables};
ghost use Rattle.abt_links.specs.Blocks.{AreGroups};

use dcsp_common::Memory;
use std::alloc::Global;
use std::marker::Model;

/// How many blocks a group has.
const GROUP: usize = 16;

/// How many blocks are walked over one by one, so that they have no groups.
const FEW: usize = 8;

/// A list of counts.
///
/// The sum of each block of 8 counts, or of 16 where there are more than 64 counts, is kept beside them, and, where
/// there are more than 8 blocks, that of each group of 16 blocks. So a running sum is found by a walk over groups, over
/// the blocks of one and over the counts of one: at most 16 looks at 64 counts, and 48 at 4,096.
#[derive(Drop)]
pub(crate) struct Sums {
    /// How many counts a block has.
    width: usize,
    counts: Vec<u32>,
    blocks: Vec<u32>,
    groups: Vec<u32>,
    total: u32,
}

impl Model for Sums {
    ghost use Rattle.std.specs.Prelude.{List, ℕ};
    ghost use Rattle.abt_links.specs.Blocks.{AreSummed};

    ghost Value = { List ℕ };

    ghost view = { λ s. s.counts.items };

    ghost invariant = { λ s. AreSummed s.width s.counts.items s.blocks.items s.groups.items s.total };
}

impl Sums {
    /// So many counts, all 0.
    pub(crate) fn new(alloc: Global, size: u32) -> Result<Sums, Memory>
        requires { size ≤ most Variables }
        ensures { IfOk result (λ s. s ≡ replicate size 0) }
    {
        let size = size as usize;
        let width = width_for(size);
        let block_count = (size + width - 1) / width;
        let counts = vec![in alloc; 0u32; size]?;
        let blocks = vec![in alloc; 0u32; block_count]?;
        let groups = vec![in alloc; 0u32; groups_for(block_count)]?;
        Ok(Sums {
            width,
            counts,
            blocks,
            groups,
            total: 0,
        })
    }

    /// Raises a count by one.
    pub(crate) fn raise(&mut self, place: u32)
        requires exists { place < length self.old }
        requires few { sum self.old < 2 ^ 32 - 1 }
        ensures { self.new ≡ slice_set self.old place (slice_index self.old place + 1) }
    {
        let place = place as usize;
        let block = block_of(place, self.width);
        self.counts[place] += 1;
        self.blocks[block] += 1;
        raise_group(&mut self.groups, block);
        self.total += 1;
    }

    /// Lowers a count by one.
    pub(crate) fn lower(&mut self, place: u32)
        requires exists { place < length self.old }
        requires some { 0 < slice_index self.old place }
        ensures { self.new ≡ slice_set self.old place (slice_index self.old place - 1) }
    {
        let place = place as usize;
        let block = block_of(place, self.width);
        self.counts[place] -= 1;
        self.blocks[block] -= 1;
        lower_group(&mut self.groups, block);
        self.total -= 1;
    }

    /// The sum of all counts.
    pub(crate) fn total(&self) -> u32
        ensures { result ≡ sum self.now }
    {
        self.total
    }

    /// The sum of the counts before a place.
    pub(crate) fn before(&self, place: u32) -> u32
        requires exists { place ≤ length self.now }
        requires few { sum self.now < 2 ^ 32 }
        ensures { result ≡ sum (take place self.now) }
    {
        let place = place as usize;
        let block = place / self.width;
        sum_of(&self.blocks[..block]) + sum_of(&self.counts[self.width * block..place])
    }

    /// The place where the running sum passes `number`, and by how much the sum before it falls short
    /// of `number`.
    pub(crate) fn find(&self, number: u32) -> (u32, u32)
        requires { number < sum self.now }
        ensures exists { result.0 < length self.now }
        ensures before { sum (take result.0 self.now) + result.1 ≡ number }
        ensures within { result.1 < slice_index self.now result.0 }
    {
        let (block, left) = find_block(&self.blocks, &self.groups, number);
        find_from(&self.counts, self.width * block as usize, left)
    }
}

/// The block of a place. A division by a number that stands here is a shift, so each width has a case of its own.
#[inline(always)]
fn block_of(place: usize, width: usize) -> usize
    requires { 0 < width }
    ensures { result ≡ place / width }
{
    match width {
        8 => place / 8,
        16 => place / 16,
        _ => place / width,
    }
}

/// How many counts a block has, where there are so many counts. Where there are few, a walk over one wide
/// block would be a walk over all of them.
fn width_for(size: usize) -> usize
    ensures some { 0 < result }
    ensures few { result ≤ 64 }
{
    if size <= 64 { 8 } else { 16 }
}

/// How many groups so many blocks have.
fn groups_for(blocks: usize) -> usize
    requires { blocks ≤ most Variables }
    ensures few { result ≤ most Variables }
    ensures enough { 0 < result → blocks ≤ 16 * result }
{
    if blocks <= FEW {
        0
    } else {
        (blocks + GROUP - 1) / GROUP
    }
}

/// Raises the sum of a block's group by one, where there are groups.
#[inline(always)]
fn raise_group(groups: &mut Vec<u32>, block: usize)
    requires few { slice_index groups.old.items (block / 16) < 2 ^ 32 - 1 }
    ensures { groups.new.items ≡ slice_set groups.old.items (block / 16) (slice_index groups.old.items (block / 16) + 1) }
{
    if let Some(sum) = groups.get_mut(block / GROUP) {
        *sum += 1;
    }
}

/// Lowers the sum of a block's group by one, where there are groups.
#[inline(always)]
fn lower_group(groups: &mut Vec<u32>, block: usize)
    requires some { block / 16 < length groups.old.items → 0 < slice_index groups.old.items (block / 16) }
    ensures { groups.new.items ≡ slice_set groups.old.items (block / 16) (slice_index groups.old.items (block / 16) - 1) }
{
    if let Some(sum) = groups.get_mut(block / GROUP) {
        *sum -= 1;
    }
}

/// The block where the running sum of blocks passes `number`, and by how much the sum before it falls short of it.
#[inline(always)]
fn find_block(blocks: &[u32], groups: &[u32], number: u32) -> (u32, u32)
    requires few { length blocks.now ≤ most Variables }
    requires groups { AreGroups groups.now blocks.now }
    requires some { number < sum blocks.now }
    ensures exists { result.0 < length blocks.now }
    ensures before { sum (take result.0 blocks.now) + result.1 ≡ number }
    ensures within { result.1 < slice_index blocks.now result.0 }
{
    let mut left = number;
    for (group, here) in groups.iter().enumerate() {
        let here = *here;
        if left < here {
            return find_from(blocks, GROUP * group, left);
        }
        left -= here;
    }
    // There are no groups.
    find_from(blocks, 0, number)
}

/// The place where the running sum from `start` on passes `number`, and by how much the sum before it
/// falls short.
fn find_from(counts: &[u32], start: usize, number: u32) -> (u32, u32)
    requires few { length counts.now ≤ most Variables }
    requires some { number < sum (drop start counts.now) }
    ensures exists { result.0 < length counts.now }
    ensures before { sum (take result.0 counts.now) + result.1 ≡ sum (take start counts.now) + number }
    ensures within { result.1 < slice_index counts.now result.0 }
{
    let mut place = start;
    let mut left = number;
    // The end is not looked for: the sum of all from here on is above what is left.
    loop {
        let here = counts[place];
        if left < here {
            return (place as u32, left);
        }
        left -= here;
        place += 1;
    }
}

/// The sum of some counts.
fn sum_of(counts: &[u32]) -> u32
    requires { sum counts.now < 2 ^ 32 }
    ensures { result ≡ sum counts.now }
{
    counts.iter().sum()
}

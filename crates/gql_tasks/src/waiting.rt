//! The numbers of those that wait, in blocks, so that taking one out of many moves few.
ghost use Rattle.std.specs.Prelude.{◌≡◌, ◌↔◌, ◌<◌, ◌≤◌, ◌++◌, [], Some, IsTrue, length, slice_get};
ghost use Rattle.std.specs.Prelude.{IfOk, OnOk, OnErr};
ghost use Rattle.std.specs.List.{remove, range_with_len};
ghost use Rattle.gql_tasks.specs.Waiting.{all_in, numbers_between, IsSpot};

use std::alloc::{AllocError, Global};
use std::collections::VecDeque;
use std::marker::Model;

/// How many numbers a block has at most.
const BLOCK: usize = 256;

/// Numbers in an order. Contracts see their list.
#[derive(Drop)]
pub struct Waiting {
    blocks: VecDeque<VecDeque<usize>>,
    count: usize,
}

impl Model for Waiting {
    ghost use Rattle.std.specs.Prelude.{ℕ, List, length, ◌≡◌};
    ghost use Rattle.gql_tasks.specs.Waiting.{all_in};

    ghost Value = { List ℕ };

    ghost view = { λ waiting. all_in waiting.blocks.items };

    ghost invariant = { λ waiting. waiting.count ≡ length (all_in waiting.blocks.items) };
}

impl Waiting {
    /// No numbers.
    pub(crate) fn new(alloc: Global) -> Waiting
        ensures { result ≡ [] }
    {
        Waiting {
            blocks: VecDeque::new(alloc),
            count: 0,
        }
    }

    /// How many numbers there are.
    pub(crate) fn len(&self) -> usize
        ensures { result ≡ length self.now }
    {
        self.count
    }

    /// Whether there are none.
    pub(crate) fn is_empty(&self) -> bool
        ensures { IsTrue result ↔ (self.now ≡ []) }
    {
        self.count == 0
    }

    /// The number at a place.
    pub(crate) fn at(&self, place: usize) -> usize
        requires { place < length self.now }
        ensures { slice_get self.now place ≡ Some result }
    {
        let spot = find(&self.blocks, place);
        self.blocks[spot.block][spot.index]
    }

    /// Adds as many numbers at the end as are counted, one after the other from the first.
    pub(crate) fn add(&mut self, first: usize, count: usize) -> Result<(), AllocError>
        ensures added { OnOk result (self.new ≡ self.old ++ range_with_len first count) }
    {
        let Some(end) = first.checked_add(count) else {
            return Err(AllocError);
        };
        let mut next = first;
        while next < end {
            next = self.add_some(next, end)?;
        }
        Ok(())
    }

    /// Adds the first of the numbers from one up to another, as many as one block takes. Tells
    /// which number is the next.
    fn add_some(&mut self, next: usize, end: usize) -> Result<usize, AllocError>
        requires { next < end }
        ensures within { IfOk result (λ stop. (next < stop) × (stop ≤ end)) }
        ensures added { IfOk result (λ stop. self.new ≡ self.old ++ numbers_between next stop) }
    {
        let Some(_) = self.count.checked_add(end - next) else {
            return Err(AllocError);
        };
        let stop = add_block(&mut self.blocks, next, end)?;
        self.count += stop - next;
        Ok(stop)
    }

    /// Takes the number at a place out.
    pub(crate) fn take(&mut self, place: usize)
        requires { place < length self.old }
        ensures { self.new ≡ remove self.old place }
    {
        let spot = find(&self.blocks, place);
        take_out(&mut self.blocks, place, spot);
        self.count -= 1;
    }
}

/// A place as a block and an index in it.
#[derive(Clone, Copy)]
struct Spot {
    block: usize,
    index: usize,
}

/// Finds a place.
fn find(blocks: &VecDeque<VecDeque<usize>>, place: usize) -> Spot
    requires { place < length (all_in blocks.now.items) }
    ensures { IsSpot blocks.now.items place result.block result.index }
{
    let mut block = 0;
    let mut index = place;
    'blocks: while index >= blocks[block].len() {
        index -= blocks[block].len();
        block += 1;
    }
    Spot { block, index }
}

/// Takes the number at a spot out. A first block without numbers goes.
fn take_out(blocks: &mut VecDeque<VecDeque<usize>>, place: usize, spot: Spot)
    requires { IsSpot blocks.old.items place spot.block spot.index }
    ensures { all_in blocks.new.items ≡ remove (all_in blocks.old.items) place }
{
    take_from(&mut blocks[spot.block], spot.index);
    if blocks[0].is_empty() {
        let _ = blocks.pop_front();
    }
}

/// Takes the number at an index out of a block, the first by the shorter way of a queue.
fn take_from(block: &mut VecDeque<usize>, index: usize)
    requires { index < length block.old.items }
    ensures { block.new.items ≡ remove block.old.items index }
{
    if index == 0 {
        let _ = block.pop_front();
    } else {
        let _ = block.remove(index);
    }
}

/// Adds the first of the numbers from one up to another: as many as the last block has room for, or
/// a new one where it is full. Tells which number is the next.
fn add_block(
    blocks: &mut VecDeque<VecDeque<usize>>,
    next: usize,
    end: usize,
) -> Result<usize, AllocError>
    requires { next < end }
    ensures within { IfOk result (λ stop. (next < stop) × (stop ≤ end)) }
    ensures added { IfOk result (λ stop.
        all_in blocks.new.items ≡ all_in blocks.old.items ++ numbers_between next stop) }
    ensures same { OnErr result (all_in blocks.new.items ≡ all_in blocks.old.items) }
{
    match blocks.back_mut() {
        Some(block) if block.len() < BLOCK => {
            let stop = stop_of(next, end, BLOCK - block.len());
            fill(block, next, stop)?;
            Ok(stop)
        }
        _ => {
            let stop = stop_of(next, end, BLOCK);
            push_block(blocks, next, stop)?;
            Ok(stop)
        }
    }
}

/// Where the numbers from one up to another stop for which there is room.
fn stop_of(next: usize, end: usize, room: usize) -> usize
    requires some { next < end }
    requires room { 0 < room }
    ensures { (next < result) × (result ≤ end) }
{
    if end - next <= room { end } else { next + room }
}

/// Adds the numbers from one up to another to a block.
#[tactic(auto, using(crate::proofs::BlockLemmas::number_added))]
fn fill(block: &mut VecDeque<usize>, next: usize, stop: usize) -> Result<(), AllocError>
    requires { next ≤ stop }
    ensures added { OnOk result (block.new.items ≡ block.old.items ++ numbers_between next stop) }
    ensures same { OnErr result (block.new.items ≡ block.old.items) }
{
    block.reserve(stop - next)?;
    for number in next..stop {
        block.push_back_reserved(number);
    }
    Ok(())
}

/// Adds the numbers from one up to another in a new block.
fn push_block(
    blocks: &mut VecDeque<VecDeque<usize>>,
    next: usize,
    stop: usize,
) -> Result<(), AllocError>
    ensures added { OnOk result
        (all_in blocks.new.items ≡ all_in blocks.old.items ++ numbers_between next stop) }
    ensures same { OnErr result (all_in blocks.new.items ≡ all_in blocks.old.items) }
{
    let block = block_of(*blocks.allocator(), next, stop)?;
    blocks.push_back(block)?;
    Ok(())
}

/// The block of the numbers from one up to another.
fn block_of(alloc: Global, next: usize, stop: usize) -> Result<VecDeque<usize>, AllocError>
    ensures { IfOk result (λ block. block.items ≡ numbers_between next stop) }
{
    let numbers: Vec<usize> = (next..stop).collect(alloc)?;
    Ok(VecDeque::from_vec(numbers))
}

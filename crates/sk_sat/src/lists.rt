// The watches of each literal, in blocks of one list.
use crate::codes::{NONE, place_of};
use std::alloc::{AllocError, Global};

/// A clause that watches a literal, and another literal of it: where that is true, the clause is not looked at.
#[derive(Clone, Copy, Drop)]
pub struct Watch {
    /// Twice the place of the clause's block, or twice its number and one more.
    target: u32,
    pub other: u32,
}

/// The room for watches that a literal has at first.
const ROOM: u32 = 4;

impl Watch {
    /// A watch that has the place of the clause's block, or the clause's number.
    pub fn new(target: usize, is_number: bool, other: u32) -> Watch {
        let twice = place_of(target).saturating_mul(2);
        Watch {
            target: if is_number {
                twice.saturating_add(1)
            } else {
                twice
            },
            other,
        }
    }

    // No watch.
    fn none() -> Watch {
        Watch {
            target: NONE,
            other: NONE,
        }
    }

    /// The same beside another literal.
    pub fn beside(self, other: u32) -> Watch {
        Watch {
            target: self.target,
            other,
        }
    }

    /// The place of the clause's block, or the clause's number.
    pub fn target(self) -> usize {
        (self.target / 2) as usize
    }

    /// Whether it has the clause's number.
    pub fn is_number(self) -> bool {
        self.target % 2 == 1
    }
}

/// Where the watches of a literal begin, how many they are, and how many have room there.
#[derive(Clone, Copy, Drop)]
struct Block {
    start: u32,
    len: u32,
    room: u32,
}

/// For each literal its watches. A block that is full moves to the end of the list.
#[derive(Drop)]
pub struct Lists {
    blocks: Vec<Block>,
    watches: Vec<Watch>,
}

impl Block {
    // No watches.
    fn none() -> Block {
        Block {
            start: 0,
            len: 0,
            room: 0,
        }
    }
}

impl Lists {
    /// No watches, of no variables. It takes no memory.
    pub fn new(alloc: Global) -> Lists {
        Lists {
            blocks: Vec::new(alloc),
            watches: Vec::new(alloc),
        }
    }

    /// Makes the number of variables at least n. The new ones have no watches.
    pub fn grow(&mut self, n: usize) -> Result<(), AllocError> {
        for _ in self.blocks.len()..n.saturating_mul(2) {
            self.blocks.push(Block::none())?;
        }
        Ok(())
    }

    /// Drops all watches.
    pub fn clear(&mut self) {
        for block in self.blocks.iter_mut() {
            *block = Block::none();
        }
        self.watches.clear();
    }

    /// The places where the watches of a literal begin and end.
    pub fn range(&self, code: u32) -> (usize, usize) {
        let c = code as usize;
        if c >= self.blocks.len() {
            return (0, 0);
        }
        let block = self.blocks[c];
        let start = block.start as usize;
        (start, start.saturating_add(block.len as usize))
    }

    /// The watch at a place.
    pub fn get(&self, place: usize) -> Watch {
        if place < self.watches.len() {
            self.watches[place]
        } else {
            Watch::none()
        }
    }

    /// Writes a watch to a place.
    pub fn put(&mut self, place: usize, watch: Watch) {
        if place < self.watches.len() {
            self.watches[place] = watch;
        }
    }

    // The same watches in a block with more room, at the end of the list.
    fn widened(&mut self, block: Block) -> Result<Block, AllocError> {
        let room = if block.room == 0 {
            ROOM
        } else {
            block.room.saturating_mul(2)
        };
        let start = place_of(self.watches.len());
        let old = block.start as usize;
        for i in 0..room {
            let watch = if i < block.len {
                self.get(old.saturating_add(i as usize))
            } else {
                Watch::none()
            };
            self.watches.push(watch)?;
        }
        Ok(Block {
            start,
            len: block.len,
            room,
        })
    }

    /// Has a clause watch a literal.
    pub fn push(&mut self, code: u32, watch: Watch) -> Result<(), AllocError> {
        let c = code as usize;
        if c >= self.blocks.len() {
            return Ok(());
        }
        let mut block = self.blocks[c];
        if block.len >= block.room {
            block = self.widened(block)?;
        }
        self.put(
            (block.start as usize).saturating_add(block.len as usize),
            watch,
        );
        block.len = block.len.saturating_add(1);
        if c < self.blocks.len() {
            self.blocks[c] = block;
        }
        Ok(())
    }

    /// Drops the watches of a literal from a place on.
    pub fn cut(&mut self, code: u32, end: usize) {
        let c = code as usize;
        if c < self.blocks.len() {
            let start = self.blocks[c].start as usize;
            self.blocks[c].len = place_of(end.saturating_sub(start));
        }
    }

    /// Moves the watches of a literal from one place on down to another, and drops what lies between.
    pub fn close(&mut self, code: u32, to: usize, from: usize) {
        let (_, end) = self.range(code);
        let mut to = to;
        for place in from..end {
            let watch = self.get(place);
            self.put(to, watch);
            to = to.saturating_add(1);
        }
        self.cut(code, to);
    }
}

// All memory taken, so that each request for more is refused.

use std::alloc::Global;
use std::process::Abort;

/// How many blocks are taken at most. Each but a few is of the largest size that the system gives at once, so a few thousand do.
const MOST_BLOCKS: usize = 1 << 17;

/// The size that is tried first, in bytes: a half of all addresses that a program may have.
const LARGEST: usize = 1 << 46;

/// How many sizes are tried, each half of the one before, down to a byte.
const SIZES: u32 = 47;

/// All memory that could be had. While it is there no request succeeds.
#[derive(Drop)]
pub(crate) struct Spent {
    blocks: Vec<Vec<u8>>,
}

/// Takes blocks of a size, as long as there are any.
fn take(alloc: Global, size: usize, blocks: &mut Vec<Vec<u8>>) {
    for _ in blocks.len()..MOST_BLOCKS {
        let Ok(block) = Vec::with_capacity(alloc, size) else {
            return;
        };
        if blocks.push(block).is_err() {
            return;
        }
    }
}

impl Spent {
    /// Takes all memory, the largest blocks first.
    pub(crate) fn all(rt: &(impl Abort + AllocGlobal)) -> Spent {
        let mut blocks = Vec::with_capacity(rt.alloc(), MOST_BLOCKS).expect(rt, "no memory");
        for halvings in 0..SIZES {
            take(rt.alloc(), LARGEST >> halvings, &mut blocks);
        }
        let spent = Spent { blocks };
        spent.expect_refused(rt);
        spent
    }

    /// The smallest request is refused.
    fn expect_refused(&self, rt: &(impl Abort + AllocGlobal)) {
        let asked: Result<Vec<u8>, _> = Vec::with_capacity(rt.alloc(), 1);
        assert!(rt;
            asked.is_err(),
            "a request behind {} blocks is not refused",
            self.blocks.len()
        );
    }
}

ghost use Rattle.std.specs.Prelude.{◌<◌, length};
ghost use Rattle.sorted_blocks.specs.Blocks.{IsPlaceFor};

use crate::block::Block;
use plain_words::Token;

/// The block in which a token stands or would stand.
pub fn block_for<V: Drop>(blocks: &[Block<V>], token: &Token) -> usize
    requires { 0 < length blocks.now }
    ensures { IsPlaceFor blocks.now token.now result }
{
    let mut low = 0;
    let mut high = blocks.len();
    while high - low > 1 {
        let middle = low + (high - low) / 2;
        if blocks[middle].starts_behind(token) {
            high = middle;
        } else {
            low = middle;
        }
    }
    low
}

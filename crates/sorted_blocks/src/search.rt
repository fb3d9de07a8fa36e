ghost use Rattle.std.specs.Prelude.{◌≡◌, IfOk, IfErr};
ghost use Rattle.std.specs.Ordering.{nat_cmp};
ghost use Rattle.std.specs.Cmp.Lexicographic.{slice_cmp};
ghost use Rattle.sorted_blocks.specs.Order.{IsRising, IsAt, IsGap};

use plain_words::Token;
use std::cmp::Ordering;

/// How two tokens stand in the order of their bytes.
pub fn order_of(one: &Token, other: &Token) -> Ordering
    ensures { result ≡ slice_cmp nat_cmp one.now other.now }
{
    one.as_bytes().cmp(other.as_bytes())
}

/// Where a token stands among rising pairs, or where it would stand.
pub fn place_of<V>(pairs: &[(Token, V)], token: &Token) -> Result<usize, usize>
    requires { IsRising pairs.now }
    ensures found { IfOk result (λ i. IsAt pairs.now token.now i) }
    ensures absent { IfErr result (λ i. IsGap pairs.now token.now i) }
{
    let mut low = 0;
    let mut high = pairs.len();
    while low < high {
        let middle = low + (high - low) / 2;
        match order_of(&pairs[middle].0, token) {
            Ordering::Less => low = middle + 1,
            Ordering::Equal => return Ok(middle),
            Ordering::Greater => high = middle,
        }
    }
    Err(low)
}

use plain_words::Token;
use sorted_blocks::SortedBlocks;
use std::alloc::{AllocError, Global};
use std::test::Fail;

/// How many tokens need several blocks.
const MANY: u64 = 1_000;
/// A number that has no part in common with `MANY`, so that its multiples come to every rest.
const STRIDE: u64 = 707;

/// The token that a number is written as; none where its text is no token.
fn token_of(alloc: Global, number: u64) -> Result<Option<Token>, AllocError> {
    let text = format!(in alloc; "token-{number}")?;
    Ok(Token::read(alloc, text.as_bytes()).ok())
}

/// Puts a value under a token, and says whether it was new.
fn put(map: &mut SortedBlocks<u64>, token: Token, value: u64) -> Result<bool, AllocError> {
    map.reserve()?;
    match map.get(&token) {
        Some(_) => Ok(false),
        None => {
            map.insert(token, value);
            Ok(true)
        }
    }
}

#[test]
fn finds_what_was_put(rt: HostRuntime) -> Result<(), Fail> {
    let alloc = rt.alloc();
    let mut map: SortedBlocks<u64> = SortedBlocks::new(alloc);
    let b = Token::read(alloc, b"b").ok().expect(&rt, "a token");
    let a = Token::read(alloc, b"a").ok().expect(&rt, "a token");
    let ab = Token::read(alloc, b"ab").ok().expect(&rt, "a token");
    assert_eq!(rt; map.get(&b), None);
    assert!(rt;
        put(
            &mut map,
            Token::read(alloc, b"b").ok().expect(&rt, "a token"),
            2
        )?
    );
    assert!(rt;
        put(
            &mut map,
            Token::read(alloc, b"a").ok().expect(&rt, "a token"),
            1
        )?
    );
    assert!(rt;
        !put(
            &mut map,
            Token::read(alloc, b"b").ok().expect(&rt, "a token"),
            3
        )?
    );
    assert_eq!(rt; map.get(&a), Some(&1));
    assert_eq!(rt; map.get(&b), Some(&2));
    assert_eq!(rt; map.get(&ab), None);
    Ok(())
}

#[test]
fn finds_each_of_many(rt: HostRuntime) -> Result<(), Fail> {
    let alloc = rt.alloc();
    let mut map: SortedBlocks<u64> = SortedBlocks::new(alloc);
    for turn in 0..MANY {
        let number = turn * STRIDE % MANY;
        let token = token_of(alloc, number)?.expect(&rt, "a token");
        assert!(rt; put(&mut map, token, number)?, "{number} was there");
    }
    for number in 0..MANY {
        let token = token_of(alloc, number)?.expect(&rt, "a token");
        assert_eq!(rt; map.get(&token), Some(&number));
    }
    let other = token_of(alloc, MANY)?.expect(&rt, "a token");
    assert_eq!(rt; map.get(&other), None);
    Ok(())
}

use sched_plain::{Name, Token, TryCopy, Write};
use std::alloc::{AllocError, Global};
use std::test::Fail;
use token_shelf::{Shelf, TokenAnswer};

/// Writes of groups whose token is kept, some more than fit into one block.
const MANY: u64 = 300;

fn token_of(alloc: Global, text: &str) -> Option<Token> {
    Token::read(alloc, text.as_bytes()).ok()
}

/// The creation of a group, with a token.
fn creation(alloc: Global, name: &str, token: &Token) -> Result<Option<Write>, AllocError> {
    match Name::read(alloc, name.as_bytes()) {
        Ok(name) => Ok(Some(Write::CreateGroup {
            name,
            token: Some(token.copy()?),
        })),
        Err(_) => Ok(None),
    }
}

/// Keeps a token that is new; otherwise says what is known of it.
fn keep(
    shelf: &mut Shelf,
    token: &Token,
    write: &Write,
    step: u64,
) -> Result<TokenAnswer, AllocError> {
    let token = token.copy()?;
    let kept = write.copy()?;
    shelf.reserve()?;
    match shelf.look(&token, write) {
        TokenAnswer::New => {
            shelf.keep(token, kept, step);
            Ok(TokenAnswer::New)
        }
        known => Ok(known),
    }
}

#[test]
fn a_token_is_kept_with_its_write(rt: HostRuntime) -> Result<(), Fail> {
    let alloc = rt.alloc();
    let mut shelf = Shelf::new(alloc);
    let one = token_of(alloc, "one").expect(&rt, "a token");
    let two = token_of(alloc, "two").expect(&rt, "a token");
    let write = creation(alloc, "g", &one)?.expect(&rt, "a write");
    let renamed = creation(alloc, "h", &one)?.expect(&rt, "a write");
    let other = creation(alloc, "g", &two)?.expect(&rt, "a write");
    let deletion = Write::DeleteGroup {
        name: Name::read(alloc, b"g").ok().expect(&rt, "a name"),
        token: Some(one.copy()?),
    };
    assert_eq!(rt; keep(&mut shelf, &one, &write, 2)?, TokenAnswer::New);
    assert_eq!(rt; shelf.look(&one, &write), TokenAnswer::Same);
    assert_eq!(rt; shelf.look(&one, &renamed), TokenAnswer::Other { step: 2 });
    assert_eq!(rt; shelf.look(&one, &deletion), TokenAnswer::Other { step: 2 });
    assert_eq!(rt; shelf.look(&two, &other), TokenAnswer::New);
    assert_eq!(rt; keep(&mut shelf, &two, &other, 7)?, TokenAnswer::New);
    assert_eq!(rt; keep(&mut shelf, &one, &write, 9)?, TokenAnswer::Same);
    assert_eq!(rt; shelf.look(&two, &write), TokenAnswer::Other { step: 7 });
    assert_eq!(rt; shelf.look(&two, &other), TokenAnswer::Same);
    Ok(())
}

#[test]
fn each_of_many_tokens_has_its_place(rt: HostRuntime) -> Result<(), Fail> {
    let alloc = rt.alloc();
    let mut shelf = Shelf::new(alloc);
    let new = token_of(alloc, "new").expect(&rt, "a token");
    let write = creation(alloc, "g", &new)?.expect(&rt, "a write");
    for step in 0..MANY {
        let token = token_of(alloc, format!(in alloc; "{step}")?.as_str()).expect(&rt, "a token");
        assert_eq!(rt;
            keep(
                &mut shelf,
                &token,
                &creation(alloc, "h", &token)?.expect(&rt, "a write"),
                step
            )?,
            TokenAnswer::New
        );
    }
    for step in 0..MANY {
        let token = token_of(alloc, format!(in alloc; "{step}")?.as_str()).expect(&rt, "a token");
        assert_eq!(rt; shelf.look(&token, &write), TokenAnswer::Other { step });
    }
    assert_eq!(rt; shelf.look(&new, &write), TokenAnswer::New);
    Ok(())
}

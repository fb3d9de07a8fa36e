//! Tests of `token_shelf` through what it shows: a token kept, the same write again, other writes, and many tokens.
#![tactic(auto)]

#[cfg(test)]
mod tokens;

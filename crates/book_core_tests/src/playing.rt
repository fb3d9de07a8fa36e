//! A page, played on a new book.
use book_core::Book;
use std::alloc::Global;
use std::process::Abort;
use step_scripts::play;

/// The page as a new book gives it back.
pub fn played(rt: &impl Abort, alloc: Global, page: &str) -> String {
    let mut book = Book::new(alloc).expect(rt, "memory for a book");
    play(&mut book, alloc, page).expect(rt, "memory for a page")
}

//! What callers ask and are answered: calls, reads, replies, and the definition of one request served.
//!
//! `specs/Serves` says what a request adds to a history and what it is answered, `specs/Replies` which rule it breaks or
//! what it is shown. Nothing here reads bytes or keeps a history.
#![tactic(auto)]

mod arn;
mod call;
mod examples;
mod letter_row;
mod page;
mod read;
mod reply;

pub use arn::arn_of;
pub use call::Call;
pub use examples::served_on_examples;
pub use letter_row::{LetterRow, LetterRows};
pub use page::{GroupPage, ListRow, ListRows, Page};
pub use read::Read;
pub use reply::{ReadReply, Refusal, Reply};

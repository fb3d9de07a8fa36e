//! Writes what a write says: its names, and what its schedule says.
ghost use Rattle.std.specs.Prelude.{◌≡◌, ◌≤◌, ◌<◌, ◌+◌, ◌++◌, ◌∷◌, [], length};
ghost use Rattle.sched_plain.specs.Validity.{IsContent, IsWrite};
ghost use Rattle.step_codec.specs.Cells.{spelled};
ghost use Rattle.step_codec.specs.Parts.{HasRoom, target_of, texts_of, timing_of};
ghost use Rattle.step_codec.specs.Payload.{code, content_cells, flag, named_cells, or_empty, write_cells};

use crate::frame_buf::FrameBuf;
use sched_plain::{Name, Schedule, Text, Token, Write};

fn put_flag(into: &mut FrameBuf, holds: bool)
    requires { 1 ≤ into.old.room }
    ensures bytes { into.new.bytes ≡ into.old.bytes ++ spelled (code (flag holds) ∷ []) }
    ensures room { into.old.room ≤ into.new.room + 1 }
{
    into.put_8(if holds { 1 } else { 0 });
}

fn put_texts(into: &mut FrameBuf, content: &Schedule)
    requires lengths { HasRoom content.now }
    requires room { 3127 ≤ into.old.room }
    ensures bytes { into.new.bytes ≡ into.old.bytes ++ spelled (texts_of content.now) }
    ensures room { into.old.room ≤ into.new.room + 3127 }
{
    into.put_words_16(content.description.as_bytes());
    into.put_words_16(content.text.as_bytes());
    into.put_words_8(content.zone.as_bytes());
}

fn put_timing(into: &mut FrameBuf, content: &Schedule)
    requires { 27 ≤ into.old.room }
    ensures bytes { into.new.bytes ≡ into.old.bytes ++ spelled (timing_of content.now) }
    ensures room { into.old.room ≤ into.new.room + 27 }
{
    into.put_date(content.start);
    into.put_date(content.finish);
    put_flag(into, content.enabled);
    put_flag(into, content.delete_after);
    into.put_16(content.window);
    into.put_8(content.policy.retries);
    into.put_32(content.policy.age);
}

/// A text that may be left out, as bytes: none where it is.
fn bytes_of(text: &Option<Text>) -> &[u8]
    ensures { result.now ≡ or_empty text.now }
{
    match text {
        Some(text) => text.as_bytes(),
        None => &[],
    }
}

fn put_target(into: &mut FrameBuf, content: &Schedule)
    requires lengths { HasRoom content.now }
    requires room { 84746 ≤ into.old.room }
    ensures bytes { into.new.bytes ≡ into.old.bytes ++ spelled (target_of content.now) }
    ensures room { into.old.room ≤ into.new.room + 84746 }
{
    into.put_words_16(content.target.as_bytes());
    into.put_words_16(content.role.as_bytes());
    into.put_words_16(bytes_of(&content.queue));
    into.put_words_32(bytes_of(&content.input));
}

fn put_content(into: &mut FrameBuf, content: &Schedule)
    requires lengths { HasRoom content.now }
    requires room { 87900 ≤ into.old.room }
    ensures bytes { into.new.bytes ≡ into.old.bytes ++ spelled (content_cells content.now) }
    ensures room { into.old.room ≤ into.new.room + 87900 }
{
    put_texts(into, content);
    put_timing(into, content);
    put_target(into, content);
}

/// A token that may be left out, as bytes: none where it is.
fn token_bytes(token: &Option<Token>) -> &[u8]
    ensures value { result.now ≡ or_empty token.now }
    ensures short { length result.now ≤ 64 }
{
    match token {
        Some(token) => token.as_bytes(),
        None => &[],
    }
}

/// The kind of a write, its token, group and name.
fn put_names(into: &mut FrameBuf, kind: u8, token: &Option<Token>, group: &[u8], name: &[u8])
    requires group { length group.now ≤ 64 }
    requires name { length name.now ≤ 64 }
    requires room { 196 ≤ into.old.room }
    ensures bytes { into.new.bytes ≡ into.old.bytes ++ spelled (named_cells kind token.now group.now name.now []) }
    ensures room { into.old.room ≤ into.new.room + 196 }
{
    into.put_8(kind);
    into.put_words_8(token_bytes(token));
    into.put_words_8(group);
    into.put_words_8(name);
}

/// The bytes of a name.
fn name_bytes(name: &Name) -> &[u8]
    ensures value { result.now ≡ name.now }
    ensures short { length result.now ≤ 64 }
{
    name.as_bytes()
}

/// The names of a write and what its schedule says.
fn put_named_content(
    into: &mut FrameBuf,
    kind: u8,
    token: &Option<Token>,
    group: &Name,
    name: &Name,
    content: &Schedule,
)
    requires valid { IsContent content.now }
    requires room { 90000 ≤ into.old.room }
    ensures bytes { into.new.bytes ≡ into.old.bytes ++ spelled (named_cells kind token.now group.now name.now (content_cells content.now)) }
    ensures room { into.old.room ≤ into.new.room + 90000 }
{
    put_names(into, kind, token, name_bytes(group), name_bytes(name));
    put_content(into, content);
}

/// A write, by its kind.
pub(crate) fn put_write(into: &mut FrameBuf, write: &Write)
    requires valid { IsWrite write.now }
    requires room { 90000 ≤ into.old.room }
    ensures bytes { into.new.bytes ≡ into.old.bytes ++ spelled (write_cells write.now) }
    ensures room { into.old.room ≤ into.new.room + 90000 }
{
    match write {
        Write::CreateSchedule {
            group,
            name,
            token,
            content,
        } => { put_named_content(into, 1, token, group, name, content) }
        Write::UpdateSchedule {
            group,
            name,
            token,
            content,
        } => { put_named_content(into, 2, token, group, name, content) }
        Write::DeleteSchedule { group, name, token } => {
            put_names(into, 3, token, name_bytes(group), name_bytes(name))
        }
        Write::CreateGroup { name, token } => { put_names(into, 4, token, name_bytes(name), &[]) }
        Write::DeleteGroup { name, token } => { put_names(into, 5, token, name_bytes(name), &[]) }
    }
}

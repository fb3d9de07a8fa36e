ghost use Rattle.std.specs.Prelude.{◌≡◌, ◌↔◌, IsTrue, IfOk};
ghost use Rattle.sched_plain.specs.declared.write.Write.TheVariants.{CreateSchedule, UpdateSchedule, DeleteSchedule, CreateGroup, DeleteGroup};

use crate::schedule::Schedule;
use plain_words::{Name, Token, TryCopy, copy_option};
use std::alloc::AllocError;

/// A call that changes schedules or groups, with the caller's token where it gave one.
#[derive(Debug, Drop)]
pub enum Write {
    CreateSchedule {
        group: Name,
        name: Name,
        token: Option<Token>,
        content: Schedule,
    },
    UpdateSchedule {
        group: Name,
        name: Name,
        token: Option<Token>,
        content: Schedule,
    },
    DeleteSchedule {
        group: Name,
        name: Name,
        token: Option<Token>,
    },
    CreateGroup {
        name: Name,
        token: Option<Token>,
    },
    DeleteGroup {
        name: Name,
        token: Option<Token>,
    },
}

fn is_same_token(one: &Option<Token>, other: &Option<Token>) -> bool
    ensures { IsTrue result ↔ (one.now ≡ other.now) }
{
    match (one, other) {
        (None, None) => true,
        (Some(one), Some(other)) => one == other,
        _ => false,
    }
}

impl Write {
    /// Whether the two writes are equal: the same operation, names, token and content.
    pub fn is_same(&self, other: &Write) -> bool
        ensures { IsTrue result ↔ (self.now ≡ other.now) }
    {
        match self {
            Write::CreateSchedule {
                group,
                name,
                token,
                content,
            } => { is_same_creation(group, name, token, content, other) }
            Write::UpdateSchedule {
                group,
                name,
                token,
                content,
            } => { is_same_update(group, name, token, content, other) }
            Write::DeleteSchedule { group, name, token } => {
                is_same_deletion(group, name, token, other)
            }
            Write::CreateGroup { name, token } => is_same_group(name, token, other),
            Write::DeleteGroup { name, token } => is_same_group_deletion(name, token, other),
        }
    }
}

fn is_same_creation(
    group: &Name,
    name: &Name,
    token: &Option<Token>,
    content: &Schedule,
    other: &Write,
) -> bool
    ensures { IsTrue result ↔ (CreateSchedule group.now name.now token.now content.now ≡ other.now) }
{
    match other {
        Write::CreateSchedule {
            group: g,
            name: n,
            token: t,
            content: c,
        } => { group == g && name == n && is_same_token(token, t) && content.is_same(c) }
        _ => false,
    }
}

fn is_same_update(
    group: &Name,
    name: &Name,
    token: &Option<Token>,
    content: &Schedule,
    other: &Write,
) -> bool
    ensures { IsTrue result ↔ (UpdateSchedule group.now name.now token.now content.now ≡ other.now) }
{
    match other {
        Write::UpdateSchedule {
            group: g,
            name: n,
            token: t,
            content: c,
        } => { group == g && name == n && is_same_token(token, t) && content.is_same(c) }
        _ => false,
    }
}

fn is_same_deletion(group: &Name, name: &Name, token: &Option<Token>, other: &Write) -> bool
    ensures { IsTrue result ↔ (DeleteSchedule group.now name.now token.now ≡ other.now) }
{
    match other {
        Write::DeleteSchedule {
            group: g,
            name: n,
            token: t,
        } => { group == g && name == n && is_same_token(token, t) }
        _ => false,
    }
}

fn is_same_group(name: &Name, token: &Option<Token>, other: &Write) -> bool
    ensures { IsTrue result ↔ (CreateGroup name.now token.now ≡ other.now) }
{
    match other {
        Write::CreateGroup { name: n, token: t } => name == n && is_same_token(token, t),
        _ => false,
    }
}

fn is_same_group_deletion(name: &Name, token: &Option<Token>, other: &Write) -> bool
    ensures { IsTrue result ↔ (DeleteGroup name.now token.now ≡ other.now) }
{
    match other {
        Write::DeleteGroup { name: n, token: t } => name == n && is_same_token(token, t),
        _ => false,
    }
}

impl TryCopy for Write {
    fn copy(&self) -> Result<Write, AllocError> {
        match self {
            Write::CreateSchedule {
                group,
                name,
                token,
                content,
            } => Ok(Write::CreateSchedule {
                group: group.copy()?,
                name: name.copy()?,
                token: copy_option(token)?,
                content: content.copy()?,
            }),
            Write::UpdateSchedule {
                group,
                name,
                token,
                content,
            } => Ok(Write::UpdateSchedule {
                group: group.copy()?,
                name: name.copy()?,
                token: copy_option(token)?,
                content: content.copy()?,
            }),
            Write::DeleteSchedule { group, name, token } => Ok(Write::DeleteSchedule {
                group: group.copy()?,
                name: name.copy()?,
                token: copy_option(token)?,
            }),
            Write::CreateGroup { name, token } => Ok(Write::CreateGroup {
                name: name.copy()?,
                token: copy_option(token)?,
            }),
            Write::DeleteGroup { name, token } => Ok(Write::DeleteGroup {
                name: name.copy()?,
                token: copy_option(token)?,
            }),
        }
    }
}

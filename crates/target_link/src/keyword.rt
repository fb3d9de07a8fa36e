ghost use Rattle.std.specs.Prelude.{◌≡◌, ◌++◌, ◌≤◌, ◌<◌, nat_eq, IsTrue, IfSome, IfOk, OnOk, length};
ghost use Rattle.std.specs.List.{starts_with};
ghost use Rattle.target_link.specs.Keywords.{keyword_at, keyword_text, replaced, value_of};

use std::alloc::AllocError;

/// A keyword of an input (EventBridge Scheduler User Guide, "Adding context attributes").
#[derive(Debug, Clone, Copy, PartialEq, Eq)]
pub enum Keyword {
    ScheduleArn,
    ScheduledTime,
    ExecutionId,
    AttemptNumber,
}

/// What an attempt puts in place of the keywords.
#[derive(Debug, Clone, Copy)]
pub struct Values<'a> {
    pub arn: &'a [u8],
    pub time: &'a [u8],
    pub id: &'a [u8],
    pub number: &'a [u8],
}

impl Keyword {
    fn text(self) -> &'static [u8]
        ensures text { result.now ≡ keyword_text self }
        ensures length { 1 ≤ length result.now }
    {
        match self {
            Keyword::ScheduleArn => b"<aws.scheduler.schedule-arn>",
            Keyword::ScheduledTime => b"<aws.scheduler.scheduled-time>",
            Keyword::ExecutionId => b"<aws.scheduler.execution-id>",
            Keyword::AttemptNumber => b"<aws.scheduler.attempt-number>",
        }
    }

    fn begins(self, text: &[u8]) -> bool
        ensures value { result ≡ starts_with nat_eq text.now (keyword_text self) }
        ensures bound { IsTrue result → length (keyword_text self) ≤ length text.now }
    {
        text.starts_with(self.text())
    }

    /// The keyword that a text begins with.
    fn at(text: &[u8]) -> Option<Keyword>
        ensures value { result ≡ keyword_at text.now }
        ensures bound { IfSome result (λ keyword. length (keyword_text keyword) ≤ length text.now) }
    {
        if Keyword::ScheduleArn.begins(text) {
            Some(Keyword::ScheduleArn)
        } else if Keyword::ScheduledTime.begins(text) {
            Some(Keyword::ScheduledTime)
        } else if Keyword::ExecutionId.begins(text) {
            Some(Keyword::ExecutionId)
        } else if Keyword::AttemptNumber.begins(text) {
            Some(Keyword::AttemptNumber)
        } else {
            None
        }
    }
}

impl Values<'_> {
    ghost use Rattle.target_link.specs.Known.{known};

    fn value(&self, keyword: Keyword) -> &[u8]
        ensures { result.now ≡ value_of (known self.now) keyword }
    {
        match keyword {
            Keyword::ScheduleArn => self.arn,
            Keyword::ScheduledTime => self.time,
            Keyword::ExecutionId => self.id,
            Keyword::AttemptNumber => self.number,
        }
    }

    /// Writes an input with its keywords replaced.
    pub fn put_replaced(&self, input: &[u8], into: &mut Vec<u8>) -> Result<(), AllocError>
        ensures { OnOk result (into.new.items ≡ into.old.items ++ replaced (known self.now) input.now) }
    {
        let mut rest = input;
        while !rest.is_empty() {
            rest = self.put_one(rest, into)?;
        }
        Ok(())
    }

    /// Writes what stands for the first byte of a text, or for the keyword there; the answer is what follows.
    fn put_one<'t>(&self, text: &'t [u8], into: &mut Vec<u8>) -> Result<&'t [u8], AllocError>
        requires { 1 ≤ length text.now }
        ensures shorter { IfOk result (λ rest. length rest.now < length text.now) }
        ensures written { IfOk result (λ rest. into.new.items ++ replaced (known self.now) rest.now
            ≡ into.old.items ++ replaced (known self.now) text.now) }
    {
        match Keyword::at(text) {
            Some(keyword) => {
                into.extend_from_slice(self.value(keyword))?;
                Ok(&text[keyword.text().len()..])
            }
            None => {
                into.push(text[0])?;
                Ok(&text[1..])
            }
        }
    }
}

/// Who holds a shard: the last taker, 0 where it was never taken; its epoch; and until when, 0 where
/// the shard is free.
#[derive(Debug, Clone, Copy, PartialEq, Eq)]
pub struct Holder {
    pub worker: u32,
    pub epoch: u64,
    pub until: u64,
}

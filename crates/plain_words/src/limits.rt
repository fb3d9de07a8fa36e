/// The last moment that the service knows, 2199-12-31T23:59:59Z, in seconds since 1970 UTC.
pub const LAST_MOMENT: u64 = 7_258_118_399;
/// The most bytes of a schedule's or a group's name.
pub const LONGEST_NAME: usize = 64;
/// The most bytes of a client token.
pub const LONGEST_TOKEN: usize = 64;
/// The most bytes of a time zone's name.
pub const LONGEST_ZONE_NAME: usize = 50;
/// The most bytes of a time zone's rules.
pub const LONGEST_ZONE: usize = 65_536;
/// The most pairs of one Enter step.
pub const MOST_PAIRS: usize = 256;
/// How many shards the incarnations are spread over.
pub const SHARDS: u8 = 8;
/// How long a lease lasts, in seconds.
pub const LEASE_SECONDS: u64 = 60;
/// The longest flexible window, in minutes.
pub const LONGEST_WINDOW: u16 = 1440;
/// The most retries of one occurrence.
pub const MOST_RETRIES: u8 = 185;
/// The shortest age, in seconds after the chosen moment, at which an occurrence is given up.
pub const LEAST_AGE: u32 = 60;
/// The longest age, in seconds after the chosen moment, at which an occurrence is given up.
pub const LONGEST_AGE: u32 = 86_400;
/// The most schedules that may live at one time.
pub const MOST_SCHEDULES: u64 = 10_000;
/// The most groups that may be there at one time, `default` among them.
pub const MOST_GROUPS: u64 = 500;
/// The most incarnations of one history.
pub const MOST_INCARNATIONS: u64 = 4_294_967_295;
/// The most characters of a schedule's description.
pub const LONGEST_DESCRIPTION: usize = 512;
/// The most characters of a schedule expression's text.
pub const LONGEST_EXPRESSION: usize = 256;
/// The most characters of an arn: a target's, a role's or a queue's.
pub const LONGEST_ARN: usize = 1600;
/// The most bytes of the input that a target is sent.
pub const LONGEST_INPUT: usize = 65_536;

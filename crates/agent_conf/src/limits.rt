//! The least and the greatest values of the keys, and what stands where a key is absent.

/// The longest frame that the agent takes, in bytes.
pub const MIN_SIZE: u32 = 256;

pub const MAX_SIZE: u32 = 65536;

pub const DEFAULT_SIZE: u32 = 16380;

/// How many requests all shards together may hold.
pub const ROW_LIMIT: u32 = 16384;

pub const SHARD_LIMIT: u32 = 64;

pub const DEFAULT_SHARDS: u32 = 1;

pub const WORKER_LIMIT: u32 = 64;

pub const DEFAULT_WORKERS: u32 = 64;

/// The most applications of a configuration.
pub const APP_LIMIT: usize = 64;

/// The most bytes of the address to listen on.
pub const LISTEN_LIMIT: usize = 256;

/// The most bytes of an application's name, and the least byte that it may have.
pub const NAME_LIMIT: usize = 256;

pub const MIN_NAME_BYTE: u8 = b' ';

/// The most bytes of a rule file's name.
pub const FILE_NAME_LIMIT: usize = 4096;

/// How long a request waits for its response, in milliseconds: at most a day.
pub const MAX_LIFE: u32 = 86_400_000;

pub const DEFAULT_LIFE: u32 = 60_000;

/// The most bytes of a configuration: 1 MiB.
pub const CONF_LIMIT: u64 = 1_048_576;

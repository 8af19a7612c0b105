// Statuses of answers (RFC 9110, 15.4 and 15.5).

pub(crate) const MOVED_PERMANENTLY: u32 = 301;

pub(crate) const FOUND: u32 = 302;

pub(crate) const SEE_OTHER: u32 = 303;

pub(crate) const TEMPORARY_REDIRECT: u32 = 307;

pub(crate) const PERMANENT_REDIRECT: u32 = 308;

pub(crate) const FORBIDDEN: u32 = 403;

pub(crate) const CONTENT_TOO_LARGE: u32 = 413;

//! The statuses of HTTP that replies have. Source: RFC 9110, section 15; RFC 6585, section 5; RFC 4918, section 11.5.

/// 200.
pub const OK: u16 = 200;

/// 201.
pub const CREATED: u16 = 201;

/// 400.
pub const BAD_REQUEST: u16 = 400;

/// 403.
pub const FORBIDDEN: u16 = 403;

/// 404.
pub const NOT_FOUND: u16 = 404;

/// 405.
pub const METHOD_NOT_ALLOWED: u16 = 405;

/// 408.
pub const REQUEST_TIMEOUT: u16 = 408;

/// 409.
pub const CONFLICT: u16 = 409;

/// 411.
pub const LENGTH_REQUIRED: u16 = 411;

/// 413.
pub const CONTENT_TOO_LARGE: u16 = 413;

/// 415.
pub const UNSUPPORTED_MEDIA_TYPE: u16 = 415;

/// 431.
pub const HEADER_FIELDS_TOO_LARGE: u16 = 431;

/// 503.
pub const SERVICE_UNAVAILABLE: u16 = 503;

/// 507.
pub const INSUFFICIENT_STORAGE: u16 = 507;

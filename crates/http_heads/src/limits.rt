// The limits of heads and fields.

/// The most bytes of a head.
pub const MAX_HEAD: usize = 32_768;

/// The most fields of a head that is read.
pub(crate) const MAX_FIELDS: usize = 64;

/// As many lines, none of them empty, as no head has: a start line and one field too many.
pub(crate) const MAX_LINES: usize = MAX_FIELDS + 2;

/// The most fields that a message has after `set` or `append`.
pub(crate) const MAX_KEPT_FIELDS: usize = 80;

/// The most bytes of a field's name that may be put in.
pub const MAX_NAME: usize = 65_535;

/// The most fields that a message has behind a `set` of VCL, and a stored response behind a 304.
pub const MAX_SET_FIELDS: usize = 72;

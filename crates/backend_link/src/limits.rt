// The limits of a reply.

/// The most interim replies that are passed over.
pub(crate) const MAX_INTERIM: u8 = 8;

/// The most bytes of a reply's body.
pub(crate) const MAX_BODY: u64 = 8_388_608;

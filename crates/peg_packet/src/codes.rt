//! The numbers by which a datagram says what it is.

/// The kind of a packet, in its fourth byte.
pub mod kinds {
    pub const READ: u8 = 1;

    pub const WRITE: u8 = 2;

    pub const TO_SERVER_READ: u8 = 3;

    pub const TO_SERVER_WRITE: u8 = 4;

    pub const READ_REPLY: u8 = 5;

    pub const WRITE_REPLY: u8 = 6;

    pub const COMMAND: u8 = 7;

    pub const COMMAND_ACK: u8 = 8;

    pub const COPY_ORDER: u8 = 9;

    pub const COPY_DATA: u8 = 10;

    pub const HELD: u8 = 11;

    pub const PART: u8 = 12;

    pub const ANNOUNCE: u8 = 13;

    pub const SURVEY: u8 = 14;

    pub const REPORT: u8 = 15;

    pub const FENCE: u8 = 16;

    pub const VOID: u8 = 17;
}

/// What a command says, in the byte behind its number.
pub mod whats {
    pub const PROMOTE: u8 = 1;

    pub const DEMOTE: u8 = 2;

    pub const COPY: u8 = 3;

    pub const SEAL: u8 = 4;

    pub const CLEAR: u8 = 5;

    pub const FENCE: u8 = 6;
}

/// What a command came to, in the byte behind its number.
pub mod results {
    pub const LISTED: u8 = 1;

    pub const ALREADY: u8 = 2;

    pub const FULL: u8 = 3;

    pub const MARKED: u8 = 4;

    pub const NOT_LISTED: u8 = 5;

    pub const ALREADY_MARKED: u8 = 6;

    pub const ORDERED: u8 = 7;

    pub const HOLDS: u8 = 8;

    pub const ACTIVATED: u8 = 9;

    pub const CLEARED: u8 = 10;

    pub const FENCED: u8 = 11;

    pub const NO_BASE: u8 = 12;

    pub const NO_VERSION: u8 = 13;
}

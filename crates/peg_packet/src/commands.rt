//! The commands and acknowledgements that bytes spell.

ghost use Rattle.std.specs.Prelude.{◌≡◌};
ghost use Rattle.peg_model.specs.Reading.{one_at};
ghost use Rattle.peg_packet.specs.Shapes.{ReadsAny, command_at, acknowledged_at, WhatFrom};

use crate::codes::whats;
use crate::outcomes::spelled_by;
use crate::parts::{eight_at, last_key};
use crate::{Packet, What};
use peg_name::{ServerId, SwitchId};

fn promote(bytes: &[u8]) -> Option<What<'_>>
    requires { one_at bytes.now 12 ≡ 1 }
    ensures { WhatFrom bytes.now result }
{
    let key = last_key(bytes, 13)?;
    Some(What::Promote { key })
}

fn demote(bytes: &[u8]) -> Option<What<'_>>
    requires { one_at bytes.now 12 ≡ 2 }
    ensures { WhatFrom bytes.now result }
{
    let key = last_key(bytes, 13)?;
    Some(What::Demote { key })
}

fn copy(bytes: &[u8]) -> Option<What<'_>>
    requires { one_at bytes.now 12 ≡ 3 }
    ensures { WhatFrom bytes.now result }
{
    let key = last_key(bytes, 14)?;
    Some(What::Copy {
        target: ServerId(bytes[13]),
        key,
    })
}

fn seal(bytes: &[u8]) -> Option<What<'_>>
    requires { one_at bytes.now 12 ≡ 4 }
    ensures { WhatFrom bytes.now result }
{
    if bytes.len() != 22 {
        return None;
    }
    Some(What::Seal {
        target: SwitchId(bytes[13]),
        epoch: eight_at(bytes, 14),
    })
}

fn clear(bytes: &[u8]) -> Option<What<'_>>
    requires { one_at bytes.now 12 ≡ 5 }
    ensures { WhatFrom bytes.now result }
{
    if bytes.len() == 13 {
        Some(What::Clear)
    } else {
        None
    }
}

fn fence_key(bytes: &[u8]) -> Option<What<'_>>
    requires { one_at bytes.now 12 ≡ 6 }
    ensures { WhatFrom bytes.now result }
{
    let key = last_key(bytes, 13)?;
    Some(What::Fence { key })
}

fn what(bytes: &[u8]) -> Option<What<'_>>
    ensures { WhatFrom bytes.now result }
{
    if bytes.len() < 13 {
        return None;
    }
    match bytes[12] {
        whats::PROMOTE => promote(bytes),
        whats::DEMOTE => demote(bytes),
        whats::COPY => copy(bytes),
        whats::SEAL => seal(bytes),
        whats::CLEAR => clear(bytes),
        whats::FENCE => fence_key(bytes),
        _ => None,
    }
}

/// The command that the bytes spell.
pub fn command(bytes: &[u8]) -> Option<Packet<'_>>
    ensures { ReadsAny bytes.now 7 (command_at bytes.now) result }
{
    let Some(what) = what(bytes) else {
        return None;
    };
    Some(Packet::Command {
        number: eight_at(bytes, 4),
        what,
    })
}

/// What a command came to, as the bytes spell it.
pub fn acknowledgement(bytes: &[u8]) -> Option<Packet<'_>>
    ensures { ReadsAny bytes.now 8 (acknowledged_at bytes.now) result }
{
    if bytes.len() != 21 {
        return None;
    }
    let value = eight_at(bytes, 13);
    let _outcome = spelled_by(bytes[12], value)?;
    Some(Packet::CommandAck {
        number: eight_at(bytes, 4),
        outcome: bytes[12],
        value,
    })
}

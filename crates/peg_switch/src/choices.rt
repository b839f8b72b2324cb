//! To which servers a request may go.

ghost use Rattle.std.specs.Prelude.{◌≡◌, true, false};
ghost use Rattle.peg_model.specs.Packet.{in_range};
ghost use Rattle.peg_model.specs.Switch.{Active, is_misplaced, switch_takes};
ghost use Rattle.peg_meaning.specs.Balance.{allowed, request_allowed};
ghost use Rattle.peg_packet.specs.Seen.{seen};
ghost use Rattle.peg_rules.specs.Choices.{allowed_seen};
ghost use Rattle.peg_switch.specs.Choices.{packet_allowed};

use crate::{Allowed, Mode, Switch};
use peg_packet::{Packet, decode, key_of};

impl Switch {
    /// To which servers `step` may send the request that the bytes spell, by its pick. `Nothing`
    /// where it would forward no request.
    pub fn allowed(&self, bytes: &[u8]) -> Allowed
        ensures { allowed_seen result ≡ allowed self.now bytes.now }
    {
        let Some((format, packet)) = decode(bytes) else {
            return Allowed::Nothing;
        };
        if format != self.config().format() {
            return Allowed::Nothing;
        }
        self.packet_allowed(&packet)
    }

    /// The same of a packet of the rack's format that `decode` has read.
    #[tactic(auto, using(crate::proofs::Allowing::not_taken, crate::proofs::Allowing::not_active))]
    pub fn packet_allowed(&self, packet: &Packet<'_>) -> Allowed
        requires { in_range self.now.rack.format (seen packet.now) ≡ true }
        ensures { allowed_seen result ≡ packet_allowed self.now (seen packet.now) }
    {
        if !self.takes(packet) {
            return Allowed::Nothing;
        }
        match &self.mode {
            Mode::Active => self.active_allowed(packet),
            Mode::Idle | Mode::Sealed { .. } => Allowed::Nothing,
        }
    }

    // While it is active, of a packet that is for a switch.
    #[tactic(auto, using(crate::proofs::Allowing::misplaced, crate::proofs::Allowing::placed))]
    fn active_allowed(&self, packet: &Packet<'_>) -> Allowed
        requires active { self.now.mode ≡ Active }
        requires range { in_range self.now.rack.format (seen packet.now) ≡ true }
        requires taken { switch_takes self.now.rack (seen packet.now) ≡ true }
        ensures { allowed_seen result ≡ packet_allowed self.now (seen packet.now) }
    {
        if self.is_misplaced(packet) {
            return Allowed::Nothing;
        }
        self.request_allowed(packet)
    }

    // Of a packet that is in place.
    #[tactic(auto, unfolding(peg_model::specs::Packet::in_range))]
    fn request_allowed(&self, packet: &Packet<'_>) -> Allowed
        requires range { in_range self.now.rack.format (seen packet.now) ≡ true }
        requires taken { switch_takes self.now.rack (seen packet.now) ≡ true }
        ensures { allowed_seen result ≡ request_allowed self.now (seen packet.now) }
    {
        match packet {
            Packet::Read { client, seq, key } => {
                self.core.allowed(false, &key_of(key), *client, *seq)
            }
            Packet::Write {
                client,
                seq,
                key,
                ..
            } => self.core.allowed(true, &key_of(key), *client, *seq),
            _ => Allowed::Nothing,
        }
    }
}

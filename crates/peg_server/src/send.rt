//! What a server sends, each packet in a helper of its own with one lifetime.

ghost use Rattle.std.specs.Prelude.{◌≡◌, ◌<◌, [], ◌∷◌, ◌++◌, length, true};
ghost use Rattle.peg_name.specs.declared.Node.TheVariants as node;
ghost use Rattle.peg_model.specs.Packet as model;
ghost use Rattle.peg_model.specs.Packet.{in_range};
ghost use Rattle.peg_packet.specs.Outbox.{posted};

use peg_name::{Content, Key, Node, ServerId, SwitchId, Version};
use peg_packet::{Header, Packet, Post, bytes_of};

/// The reply to a read.
pub fn read_reply<'a>(
    header: &Header,
    version: Version,
    key: &'a Key,
    content: &'a Content<'a>,
    post: &mut Post,
)
    requires room { length post.old.items < post.old.slots }
    requires range { in_range post.old.format
        (model.ReadReply header.now.client header.now.seq version header.now.server
        header.now.switch key.now content.now) ≡ true }
    ensures { post.new ≡ posted post.old
        ((
          node.Switch header.now.switch,
          model.ReadReply header.now.client header.now.seq version header.now.server
              header.now.switch key.now content.now,
        ) ∷ []) }
{
    let packets = [Packet::ReadReply {
        header: *header,
        version,
        key: key.bytes(),
        content: bytes_of(content),
    }];
    post.put(Node::Switch(header.switch), &packets[0]);
}

/// The reply to a write.
pub fn write_reply(header: &Header, version: Version, key: &Key, post: &mut Post)
    requires room { length post.old.items < post.old.slots }
    requires range { in_range post.old.format
        (model.WriteReply header.now.client header.now.seq version header.now.server
        header.now.switch key.now) ≡ true }
    ensures { post.new ≡ posted post.old
        ((
          node.Switch header.now.switch,
          model.WriteReply header.now.client header.now.seq version header.now.server
              header.now.switch key.now,
        ) ∷ []) }
{
    let packets = [Packet::WriteReply {
        header: *header,
        version,
        key: key.bytes(),
    }];
    post.put(Node::Switch(header.switch), &packets[0]);
}

/// The void of a write that came too late.
pub fn void(header: &Header, version: Version, key: &Key, post: &mut Post)
    requires room { length post.old.items < post.old.slots }
    requires range { in_range post.old.format
        (model.Void header.now.client header.now.seq version header.now.server
        header.now.switch key.now) ≡ true }
    ensures { post.new ≡ posted post.old
        ((
          node.Switch header.now.switch,
          model.Void header.now.client header.now.seq version header.now.server
              header.now.switch key.now,
        ) ∷ []) }
{
    let packets = [Packet::Void {
        header: *header,
        version,
        key: key.bytes(),
    }];
    post.put(Node::Switch(header.switch), &packets[0]);
}

/// The report that a version is held.
pub fn held(server: ServerId, version: Version, switch: SwitchId, key: &Key, post: &mut Post)
    requires room { length post.old.items < post.old.slots }
    requires range { in_range post.old.format
        (model.Held server version key.now) ≡ true }
    ensures { post.new ≡ posted post.old
        ((node.Switch switch, model.Held server version key.now) ∷ []) }
{
    let packets = [Packet::Held {
        server,
        version,
        key: key.bytes(),
    }];
    post.put(Node::Switch(switch), &packets[0]);
}

/// A copy to another server.
pub fn copy<'a>(
    switch: SwitchId,
    target: ServerId,
    version: Version,
    key: &'a Key,
    content: &'a Content<'a>,
    post: &mut Post,
)
    requires room { length post.old.items < post.old.slots }
    requires range { in_range post.old.format
        (model.CopyData switch target version key.now content.now) ≡ true }
    ensures { post.new ≡ posted post.old
        ((node.Server target, model.CopyData switch target version key.now content.now) ∷ []) }
{
    let packets = [Packet::CopyData {
        switch,
        server: target,
        version,
        key: key.bytes(),
        content: bytes_of(content),
    }];
    post.put(Node::Server(target), &packets[0]);
}

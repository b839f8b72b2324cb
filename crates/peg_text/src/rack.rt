//! The rack line, read.
ghost use Rattle.std.specs.Prelude.{◌≡◌, ◌≤◌, [], IfSome, List, ℕ, option_map};
ghost use Rattle.peg_name.specs.Name as name;
ghost use Rattle.peg_model.specs.Schedule.{IsRackLine};
ghost use Rattle.peg_text.specs.Reading.{words_of};
ghost use Rattle.peg_text.specs.Racks as racks;

use crate::words::{Words, key_of};
use peg_name::{Config, Key};
use std::marker::Model;

#[derive(Drop)]
struct Keys {
    keys: [Key; 64],
    count: usize,
}

impl Model for Keys {
    ghost use Rattle.std.specs.Prelude.{◌≤◌, List, ℕ, take};

    ghost Value = { List (List ℕ) };

    ghost view = { λ k. take k.count k.keys };

    ghost invariant = { λ k. k.count ≤ 64 };
}

impl Keys {
    fn make() -> Keys
        ensures { result ≡ [] }
    {
        let any = Key::read(b"-").unwrap();
        Keys {
            keys: [any; 64],
            count: 0,
        }
    }

    fn as_slice(&self) -> &[Key]
        ensures { result.now ≡ self.now }
    {
        &self.keys[..self.count]
    }

    // A key is added where it is another and there are fewer than are listed.
    fn add(&mut self, listed: u64, key: Key) -> Option<()>
        requires { listed ≤ 64 }
        ensures { option_map (λ _. self.new) result ≡ racks.added listed key self.old }
    {
        if self.count as u64 >= listed || self.as_slice().contains(&key) {
            return None;
        }
        self.keys[self.count] = key;
        self.count += 1;
        Some(())
    }
}

/// The configuration and the first keys of a rack line. A contract sees the pair of these.
#[derive(Drop)]
pub struct Rack {
    config: Config,
    keys: Keys,
}

impl Model for Rack {
    ghost use Rattle.std.specs.Prelude.{List, ℕ};
    ghost use Rattle.peg_name.specs.Name as name;

    ghost Value = { name.Rack × List (List ℕ) };

    ghost view = { λ r. (r.config, r.keys) };
}

impl Rack {
    /// Its configuration.
    pub fn config(&self) -> &Config
        ensures { result.now ≡ self.now.0 }
    {
        &self.config
    }

    /// The keys that the line names, in its order.
    pub fn keys(&self) -> &[Key]
        ensures { result.now ≡ self.now.1 }
    {
        self.keys.as_slice()
    }
}

fn read_config(words: &mut Words<'_>) -> Option<Config>
    ensures { option_map (λ config. (config, words.new)) result ≡ racks.read_rack words.old }
{
    words.literal(b"rack")?;
    let servers = words.field(b"servers=")?;
    let clients = words.field(b"clients=")?;
    let switches = words.field(b"switches=")?;
    let listed = words.field(b"listed=")?;
    let hot = words.field(b"hot=")?;
    let first = words.field(b"first=")?;
    let format = if words.take(b"format=2") { 2 } else { 1 };
    Config::make(format, servers, clients, switches, listed, hot, first).ok()
}

fn plus_key_of(word: &[u8]) -> Option<Key>
    ensures { result ≡ racks.plus_key_of word.now }
{
    let [b'+', rest @ ..] = word else {
        return None;
    };
    key_of(rest)
}

fn read_keys(listed: u64, mut words: Words<'_>) -> Option<Keys>
    requires { listed ≤ 64 }
    ensures { result ≡ racks.keys_on listed [] words.entry }
{
    let mut keys = Keys::make();
    while let Some(word) = words.next() {
        keys.add(listed, plus_key_of(word)?)?;
    }
    Some(keys)
}

fn rack_in(line: &[u8]) -> Option<Rack>
    ensures { result ≡ racks.rack_of line.now }
{
    let mut words = Words::of(line);
    let config = read_config(&mut words)?;
    let keys = read_keys(config.listed(), words)?;
    Some(Rack { config, keys })
}

/// What a rack line says. `None`: it is outside the grammar.
pub fn rack_of(line: &[u8]) -> Option<Rack>
    ensures sound { IfSome result (λ r. IsRackLine line.now r.0 r.1) }
    ensures complete { (rack : name.Rack) (keys : List (List ℕ)) → IsRackLine line.now rack keys
        → result ≡ Some (rack, keys) }
{
    rack_in(line)
}

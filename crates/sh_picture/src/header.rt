// What the first 56 bytes of a picture say.
ghost use Rattle.std.specs.Prelude.{ℕ, ◌≡◌, ◌≤◌, ◌<◌, ◌+◌, ◌*◌, length, MatchOption, MatchResult, None, Some};
ghost use Rattle.sh_base.specs.Parts.{parts_of};
ghost use Rattle.sh_picture.specs.{Picture.{number_in, parts_spelled}, Fault.{HasMagic, HasWords, IsFirstPlace, IsMagicAt}, Tree.{IsFirstBad}};

use crate::FirstPlace;
use byteorder::{BigEndian, ByteOrder};
use sh_base::{Config, ConfigParts};

// What every picture begins with.
pub(crate) const MAGIC: [u8; 8] = *b"SHERMAN1";

// The first byte that differs from the magic.
fn first_differing(bytes: &[u8]) -> Option<usize>
    requires { 8 ≤ length bytes.now }
    ensures { MatchOption result ((i : ℕ) → i < 8 → IsMagicAt bytes.now i) (λ at. IsFirstBad (IsMagicAt bytes.now) 8 at) }
{
    let magic = MAGIC;
    for at in 0..8 {
        if bytes[at] != magic[at] {
            return Some(at);
        }
    }
    None
}

// Number i of the setting.
#[tactic(auto, unfolding(crate::specs::Picture::number_in))]
fn number_in(bytes: &[u8], i: usize) -> u32
    requires some { i < 12 }
    requires long { 56 ≤ length bytes.now }
    ensures { result ≡ number_in bytes.now i }
{
    BigEndian::read_u32(&bytes[8 + 4 * i..])
}

// The numbers of the setting.
fn parts_in(bytes: &[u8]) -> ConfigParts
    requires { 56 ≤ length bytes.now }
    ensures { result ≡ parts_spelled bytes.now }
{
    ConfigParts {
        servers: number_in(bytes, 0),
        chunks: number_in(bytes, 1),
        chunk_nodes: number_in(bytes, 2),
        locks: number_in(bytes, 3),
        leaf: number_in(bytes, 4),
        computes: number_in(bytes, 5),
        seats: number_in(bytes, 6),
        bound: number_in(bytes, 7),
        bits: number_in(bytes, 8),
        rows: number_in(bytes, 9),
        cached: number_in(bytes, 10),
        value_words: number_in(bytes, 11),
    }
}

// The setting of a picture that has as many bytes as its pool wants, or the place before which this isn't so.
pub(crate) fn setting_of(bytes: &[u8]) -> Result<Config, FirstPlace>
    ensures { MatchResult result (λ cfg. HasWords bytes.now × (parts_of cfg ≡ parts_spelled bytes.now)) (λ place. IsFirstPlace bytes.now place) }
{
    if bytes.len() < 56 {
        return Err(FirstPlace::Short);
    }
    if let Some(at) = first_differing(bytes) {
        return Err(FirstPlace::Magic { at: at as u64 });
    }
    let cfg = match Config::new(parts_in(bytes)) {
        Ok(cfg) => cfg,
        Err(fault) => return Err(FirstPlace::Setting(fault)),
    };
    if bytes.len() != 56 + 8 * cfg.words() as usize {
        return Err(FirstPlace::Length {
            len: bytes.len() as u64,
        });
    }
    Ok(cfg)
}

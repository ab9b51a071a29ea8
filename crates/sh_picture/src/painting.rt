// The bytes of a picture, written.
ghost use Rattle.std.specs.Prelude.{◌≡◌, ◌≤◌, ◌+◌, ◌*◌, ◌++◌, drop, length, take, OnOk, OnErr};
ghost use Rattle.std.specs.{List.{flat_map}, Io.KnownBytes.{Appends}};
ghost use Rattle.byteorder.specs.Endian.{big_bytes};
ghost use Rattle.sh_base.specs.{Parts.{parts_of}, Setting.{pool_words}};
ghost use Rattle.sh_port.specs.Port.{AppendsFront, HasFaultCause};
ghost use Rattle.sh_picture.specs.Picture.{header_of, setting_numbers, picture_of};

use crate::header::MAGIC;
use byteorder::{BigEndian, ByteOrder};
use sh_base::{Config, ConfigParts};
use sh_port::{Failed, Sink, write_all};

// The words of a piece.
const PIECE: usize = 512;

// The twelve numbers of a setting, in their order.
fn numbers_of(p: &ConfigParts) -> [u32; 12]
    ensures { result ≡ setting_numbers p.now }
{
    [
        p.servers,
        p.chunks,
        p.chunk_nodes,
        p.locks,
        p.leaf,
        p.computes,
        p.seats,
        p.bound,
        p.bits,
        p.rows,
        p.cached,
        p.value_words,
    ]
}

// Writes the first 56 bytes of a picture.
#[tactic(auto, unfolding(crate::specs::Picture::header_of))]
fn write_header(cfg: &Config, out: &mut [u8])
    requires { length out.old ≡ 56 }
    ensures { out.new ≡ header_of (parts_of cfg.now) }
{
    out[..8].copy_from_slice(&MAGIC);
    BigEndian::write_u32_into(&numbers_of(&cfg.parts()), &mut out[8..]);
}

// Room for the first bytes and a piece.
fn room() -> [u8; 4152]
    ensures { length result ≡ 4152 }
{
    [0; 4152]
}

// Puts down the picture of so many words.
fn put_first(cfg: &Config, words: &[u64], out: &mut [u8])
    requires { length out.old ≡ 56 + 8 * length words.now }
    ensures { out.new ≡ picture_of (parts_of cfg.now) words.now }
{
    write_header(cfg, &mut out[..56]);
    BigEndian::write_u64_into(words, &mut out[56..]);
}

// Writes the first piece: the first 56 bytes, and the words of a piece at most.
fn write_first<K: Sink>(cfg: &Config, words: &[u64], sink: &mut K) -> Result<(), Failed>
    requires { length words.now ≤ 512 }
    ensures ok { OnOk result (Appends (K.held sink.old) (K.held sink.new) (picture_of (parts_of cfg.now) words.now)) }
    ensures err { OnErr result (AppendsFront (K.held sink.old) (K.held sink.new) (picture_of (parts_of cfg.now) words.now)) }
    ensures cause { HasFaultCause (K.faults sink.old) (K.faults sink.new) result }
{
    let mut bytes = room();
    let end = 56 + 8 * words.len();
    put_first(cfg, words, &mut bytes[..end]);
    write_all(sink, &bytes[..end])
}

// Writes the bytes of so many words.
fn write_words<K: Sink>(words: &[u64], sink: &mut K) -> Result<(), Failed>
    requires { length words.now ≤ 512 }
    ensures ok { OnOk result (Appends (K.held sink.old) (K.held sink.new) (flat_map (big_bytes 8) words.now)) }
    ensures err { OnErr result (AppendsFront (K.held sink.old) (K.held sink.new) (flat_map (big_bytes 8) words.now)) }
    ensures cause { HasFaultCause (K.faults sink.old) (K.faults sink.new) result }
{
    let mut bytes = room();
    let end = 8 * words.len();
    BigEndian::write_u64_into(words, &mut bytes[..end]);
    write_all(sink, &bytes[..end])
}

/// Writes the picture of a pool's words: on `Ok` the sink holds just these bytes more, and where a call of it fails a
/// front of them. It goes out in pieces of 4,096 bytes, the first of 56 more, and takes no memory. Condition: the words
/// are as many as the setting's pool has.
pub fn paint<K: Sink>(cfg: &Config, words: &[u64], sink: &mut K) -> Result<(), Failed>
    requires { length words.now ≡ pool_words (parts_of cfg.now) }
    ensures ok { OnOk result (Appends (K.held sink.old) (K.held sink.new) (picture_of (parts_of cfg.now) words.now)) }
    ensures err { OnErr result (AppendsFront (K.held sink.old) (K.held sink.new) (picture_of (parts_of cfg.now) words.now)) }
    ensures cause { HasFaultCause (K.faults sink.old) (K.faults sink.new) result }
{
    let mut at = words.len().min(PIECE);
    write_first(cfg, &words[..at], sink)?;
    'pieces: while at < words.len() {
        let end = (at + PIECE).min(words.len());
        write_words(&words[at..end], sink)?;
        at = end;
    }
    Ok(())
}

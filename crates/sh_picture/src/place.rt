// Where bytes aren't the picture of a lawful tree.

use sh_base::ConfigFault;

/// The first place where bytes aren't the picture of a lawful tree. The places are looked at in this order.
#[derive(Clone, Copy, Debug, PartialEq, Eq)]
pub enum FirstPlace {
    /// There are fewer than 56 bytes.
    Short,
    /// This byte is the first that differs from `SHERMAN1`.
    Magic { at: u64 },
    /// The setting is refused.
    Setting(ConfigFault),
    /// There are this many bytes, and not as many as the setting's pool wants.
    Length { len: u64 },
    /// Word 0 isn't 0.
    Zero,
    /// The word of this lock isn't 0, and it is the first like that.
    Lock { lock: u32 },
    /// The root word names no node, or that node spells no image.
    Root,
    /// The walk along the levels comes on this level to this number, which names no node that spells an image of the
    /// level and begins where the one before ends.
    Chain { level: u64, node: u32 },
    /// This pair's child is no node of the level below that begins at the pair's separator.
    Pair { node: u32, index: u32 },
    /// This leaf has a key twice; the key is its least like that.
    Twice { node: u32, key: u64 },
}

// What a client is after.
ghost use Rattle.std.specs.Prelude.{◌≡◌, ◌+◌, ◌==◌, IsTrue, MatchOption, false, length, replicate, true};
ghost use Rattle.sh_base.specs.{Parts.{parts_of}, Setting.{IsNode}};
ghost use Rattle.sh_map.specs.Calls.{IsInRange};
ghost use Rattle.sh_decide.specs.{declared.state.Aim.TheVariants.{Own}, Aims.{aim_of, aimed_key, call_key, end_of, is_node, takes_lock, target, written_key, written_value}};

use crate::Aim;
use sh_base::{Config, Value};
use sh_map::Call;

/// A call's key, and a range's low end.
pub fn call_key(call: &Call) -> u64
    ensures { result ≡ call_key call.now }
{
    match *call {
        Call::Get { key } => key,
        Call::Put { key, .. } => key,
        Call::Del { key } => key,
        Call::Range { low, .. } => low,
    }
}

/// The key that an update leaves in its entry: a put its own, and a delete 0, as an empty entry has. Of a get or a range
/// it is 0, too.
pub fn written_key(call: &Call) -> u64
    ensures { result ≡ written_key call.now }
{
    match *call {
        Call::Get { .. } => 0,
        Call::Put { key, .. } => key,
        Call::Del { .. } => 0,
        Call::Range { .. } => 0,
    }
}

// As many words of 0 as a value has.
fn zeros(cfg: &Config) -> Value
    ensures { result ≡ replicate cfg.now.parts.value_words 0 }
{
    let zeros = [0; 8];
    Value::of(&zeros[..cfg.value_words() as usize])
}

/// The value that an update leaves in its entry, with as many words as the setting's values have: a put its own, and a
/// delete words of 0. So of a get or a range. Condition: the call is in range.
pub fn written_value(cfg: &Config, call: &Call) -> Value
    requires { IsInRange (parts_of cfg.now) call.now }
    ensures value { result ≡ written_value (parts_of cfg.now) call.now }
    ensures size { length result ≡ cfg.now.parts.value_words }
{
    match *call {
        Call::Get { .. } => zeros(cfg),
        Call::Put { value, .. } => value,
        Call::Del { .. } => zeros(cfg),
        Call::Range { .. } => zeros(cfg),
    }
}

/// What a call's descent is for: a range gathers rows from its low end on, and any other call looks for its own leaf.
pub fn aim_of(call: &Call) -> Aim
    ensures { result ≡ aim_of call.now }
{
    match *call {
        Call::Get { .. } => Aim::Own,
        Call::Put { .. } => Aim::Own,
        Call::Del { .. } => Aim::Own,
        Call::Range { low, .. } => Aim::Gathers { place: low },
    }
}

/// The high end of a range, and 0 of any other call.
pub fn end_of(call: &Call) -> u64
    ensures { result ≡ end_of call.now }
{
    match *call {
        Call::Get { .. } => 0,
        Call::Put { .. } => 0,
        Call::Del { .. } => 0,
        Call::Range { high, .. } => high,
    }
}

// The key that a descent looks for.
pub(crate) fn aimed_key(call: &Call, aim: Aim) -> u64
    ensures { result ≡ aimed_key call.now aim }
{
    match aim {
        Aim::Own => call_key(call),
        Aim::Gathers { place } => place,
        Aim::Posts { post } => post.separator,
    }
}

// The level at which it ends.
pub(crate) fn target(aim: Aim) -> u64
    ensures { result ≡ target aim }
{
    match aim {
        Aim::Own => 0,
        Aim::Gathers { .. } => 0,
        Aim::Posts { post } => post.level,
    }
}

// Whether the node at its end is READ under its lock.
pub(crate) fn takes_lock(call: &Call, aim: Aim) -> bool
    ensures { result ≡ takes_lock call.now aim }
{
    match aim {
        Aim::Own => is_update(call),
        Aim::Gathers { .. } => false,
        Aim::Posts { .. } => true,
    }
}

/// Whether the call is a put or a delete: its leaf is READ under its lock.
pub fn is_update(call: &Call) -> bool
    ensures { result ≡ takes_lock call.now Own }
{
    match *call {
        Call::Get { .. } => false,
        Call::Put { .. } => true,
        Call::Del { .. } => true,
        Call::Range { .. } => false,
    }
}

// Whether it is the number of a node.
pub(crate) fn is_node(cfg: &Config, node: u64) -> bool
    ensures exact { result ≡ is_node (parts_of cfg.now) node }
    ensures node { IsTrue result → IsNode (parts_of cfg.now) node }
{
    1 <= node && node <= u64::from(cfg.nodes())
}

// Whether a number is one more than another.
pub(crate) fn is_next(high: u64, low: u64) -> bool
    ensures { result ≡ (high == low + 1) }
{
    low < high && high - low == 1
}

/// The node that a word names, or none where it isn't the number of a node of the setting.
pub fn node_in(cfg: &Config, word: u64) -> Option<u32>
    ensures { MatchOption result (is_node (parts_of cfg.now) word ≡ false) (λ node. (node ≡ word) × (is_node (parts_of cfg.now) word ≡ true) × IsNode (parts_of cfg.now) node) }
{
    if word <= u64::from(cfg.nodes()) && is_node(cfg, word) {
        Some(word as u32)
    } else {
        None
    }
}

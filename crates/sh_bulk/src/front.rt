// The words before the nodes.
ghost use Rattle.std.specs.Prelude.{◌≡◌, ◌<◌, ◌≤◌, replicate};
ghost use Rattle.sh_base.specs.{Parts.{parts_of}, Setting.{first_node_word, nodes}};
ghost use Rattle.sh_bulk.specs.Words.{drawn_of, front_words};

use crate::shape::div_up;
use sh_base::Config;

// How many of a server's chunks hold one of the nodes 1 to `need`.
#[tactic(auto, unfolding(crate::specs::Words::drawn_of))]
fn drawn_of(cfg: &Config, need: usize, server: usize) -> u64
    requires server { server < cfg.now.parts.servers }
    ensures { result ≡ drawn_of (parts_of cfg.now) need server }
{
    let parts = cfg.parts();
    let chunks = parts.chunks as usize;
    let drawn = div_up(need, parts.chunk_nodes as usize);
    drawn.saturating_sub(server * chunks).min(chunks) as u64
}

/// Writes the pool's own word, the root word, the counters and the locks, where nodes 1 to `need` are numbered and the last
/// one is the root.
#[tactic(auto, unfolding(crate::specs::Words::front_words))]
pub(crate) fn put_front(cfg: &Config, need: usize, out: &mut [u64])
    requires { out.old ≡ replicate (first_node_word (parts_of cfg.now)) 0 }
    ensures { out.new ≡ front_words (parts_of cfg.now) need }
{
    let servers = cfg.parts().servers as usize;
    out[1] = need as u64;
    for server in 0..servers {
        out[2 + server] = drawn_of(cfg, need, server);
    }
}
